ghost use Rattle.std.specs.Prelude.{ℕ};
ghost use Rattle.m17_app.specs.Status.{beside, count_from, streams};
ghost use Rattle.m17_app.specs.Terms.{RunsCommand};
ghost use Rattle.m17_app.specs.Text.{migrate_command, text_terms};

use crate::conclude::conclude;
use crate::status::Status;
use m17_book::laws::books_are_exact;
use m17_io::{Input, Sink};
use m17_text_commands::migrate;
use std::alloc::Global;

// Runs `migrate` to its last line.
pub fn run_migrate<S: Input<K>, K: Sink>(alloc: Global, input: &mut S, out: &mut K) -> Status
    ensures { (ports crew : ℕ) → RunsCommand (text_terms migrate_command) result
        (streams (S.told input.old) (K.told out.old)) (streams (S.told input.new) (K.told out.new))
        (beside (count_from ports ports) (count_from crew crew)) }
{
    books_are_exact();
    match migrate(alloc, input, out) {
        Ok(ending) => conclude(out, &ending.into_ending()),
        Err(_) => Status::NoMemory,
    }
}
