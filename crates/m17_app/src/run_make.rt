ghost use Rattle.std.specs.Prelude.{◌≤◌, ℕ};
ghost use Rattle.m17_app.specs.Make.{make_terms};
ghost use Rattle.m17_app.specs.Status.{beside, count_from, streams};
ghost use Rattle.m17_app.specs.Terms.{RunsCommand};

use crate::conclude::end_with;
use crate::status::Status;
use m17_io::{Input, Sink};
use m17_text_commands::make;

// Runs `make` to its end, which has no last line.
pub fn run_make<S: Input<K>, K: Sink>(seed: u64, count: u32, input: &S, out: &mut K) -> Status
    requires { count ≤ 100000 }
    ensures { (ports crew : ℕ) → RunsCommand (make_terms seed count) result
        (streams (S.told input.now) (K.told out.old)) (streams (S.told input.now) (K.told out.new))
        (beside (count_from ports ports) (count_from crew crew)) }
{
    match make(seed, count, out) {
        Ok(()) => end_with(out, b"", Status::Finished),
        Err(_) => Status::WriteFailed,
    }
}
