ghost use Rattle.std.specs.Prelude.{◌≡◌, ◌≢◌, ℕ, Bool, List, [], Some, IfOk, IfErr, OnErr, MatchResult};
ghost use Rattle.m17_io.specs.Faults.{HasCauses};
ghost use Rattle.m17_book.specs.Answers.{HasEnd};
ghost use Rattle.m17_book.specs.Book.{IsTrace};
ghost use Rattle.m17_plan.specs.declared.plan.Plan.{Plan};
ghost use Rattle.m17_replay.specs.declared.ending.ReplayEnding.TheVariants.{Refused, CrewRefused};
ghost use Rattle.m17_replay.specs.Replay.{streams, ComesToReplay};
ghost use Rattle.m17_replay.specs.Run.{stopped_by};

use crate::{ReplayEnding, TraceReason};
use m17_book::{FormRefusal, read_trace_for};
use m17_io::{Input, Sink};
use m17_values::{Heard, NoMemory};
use std::alloc::Global;

// Reads the trace, whole, once the sink has handed on what it held back. Else how the run ended.
pub(crate) fn read_heard<S: Input<K>, K: Sink>(
    alloc: Global,
    input: &mut S,
    out: &mut K,
) -> Result<Result<Vec<Heard>, ReplayEnding>, NoMemory>
    ensures causes { IfOk result (λ read. HasCauses ((S.told input.old).faults, (K.told out.old).faults)
        ((S.told input.new).faults, (K.told out.new).faults) (stopped_by read)) }
    ensures ends { IfOk result (λ read. IfOk read (λ heard. HasEnd heard.items)) }
    ensures read { IfOk result (λ read. (bytes : List ℕ) → (S.told input.old).left ≡ Some bytes →
        MatchResult read (λ heard. IsTrace bytes heard.items × ((S.told input.new).left ≡ Some []))
        (λ ending. (plan : Plan) → (summary : Bool) → ComesToReplay plan summary ending
        (streams bytes (S.told input.new).left (K.told out.old).written (K.told out.new).written))) }
    ensures no_crew { IfOk result (λ read. IfErr read (λ ending. ending ≢ CrewRefused)) }
    ensures nothing_written { (K.told out.new).written ≡ (K.told out.old).written }
    ensures no_fault { OnErr result (((S.told input.new).faults ≡ (S.told input.old).faults)
        × ((K.told out.new).faults ≡ (K.told out.old).faults)) }
{
    let Ok(()) = out.flush() else {
        return Ok(Err(ReplayEnding::WriteFailed));
    };
    match read_trace_for(alloc, input, out) {
        Ok(heard) => Ok(Ok(heard)),
        Err(FormRefusal::NoMemory) => Err(NoMemory),
        Err(FormRefusal::ReadFault) => Ok(Err(ReplayEnding::ReadFailed)),
        Err(FormRefusal::Cut { at }) => Ok(Err(refused(at, TraceReason::Cut))),
        Err(FormRefusal::Kind { at, byte }) => Ok(Err(refused(at, TraceReason::Kind(byte)))),
        Err(FormRefusal::Field { at }) => Ok(Err(refused(at, TraceReason::Field))),
        Err(FormRefusal::Large { at }) => Ok(Err(refused(at, TraceReason::Large))),
    }
}

// The ending of a run whose input is refused.
fn refused(place: u64, reason: TraceReason) -> ReplayEnding
    ensures { result ≡ Refused place reason }
{
    ReplayEnding::Refused { place, reason }
}
