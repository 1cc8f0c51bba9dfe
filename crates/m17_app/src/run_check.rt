ghost use Rattle.std.specs.Prelude.{ℕ};
ghost use Rattle.m17_app.specs.Status.{beside, count_from, streams};
ghost use Rattle.m17_app.specs.Terms.{RunsCommand};
ghost use Rattle.m17_app.specs.Text.{check_command, text_terms};

use crate::conclude::conclude;
use crate::status::Status;
use m17_io::{Input, Sink};
use m17_text_commands::check;
use m17_text_commands::check_laws::legal_books_are_not_refused;

// Runs `check` to its last line.
pub fn run_check<S: Input<K>, K: Sink>(input: &mut S, out: &mut K) -> Status
    ensures { (ports crew : ℕ) → RunsCommand (text_terms check_command) result
        (streams (S.told input.old) (K.told out.old)) (streams (S.told input.new) (K.told out.new))
        (beside (count_from ports ports) (count_from crew crew)) }
{
    legal_books_are_not_refused();
    let ending = check(input, out);
    conclude(out, &ending.into_ending())
}
