//! What a worker keeps of its verdicts.
ghost use Rattle.std.specs.Prelude.{◌≡◌};
ghost use Rattle.m17_worker.specs.Underway.{filled};

use m17_control::Event;
use m17_floor::Verdict;
use m17_tape::Tape;

// Puts the verdict on what came from an entry of link 0 into the entry's cell, if it has one.
pub(crate) fn fill_tape(tape: &mut Tape<Verdict>, event: &Event, verdict: Option<Verdict>)
    ensures { tape.new ≡ filled tape.old event.now verdict }
{
    if event.tag.link != 0 {
        return;
    }
    if let Some(decided) = verdict {
        tape.fill(event.tag.index, decided);
    }
}
