ghost use Rattle.std.specs.Prelude.{◌≡◌, ◌≢◌, ℕ, List, Some, IfOk, OnErr, MatchResult};
ghost use Rattle.m17_io.specs.Faults.{HasCauses};
ghost use Rattle.m17_values.specs.declared.heard.Heard.{Heard};
ghost use Rattle.m17_print.specs.Endings.{Grows};
ghost use Rattle.m17_plan.specs.Planned.{IsPlan};
ghost use Rattle.m17_plan.specs.declared.plan.Plan.{Plan};
ghost use Rattle.m17_replay.specs.Replay.{failed_device, streams, ComesToReplay, EndsBeforeText, TellsCrew};
ghost use Rattle.m17_replay.specs.declared.ending.ReplayEnding.TheVariants.{CrewRefused};
ghost use Rattle.m17_replay.specs.Run.{judged_ending, CanPrint, IsJudged, IsPrinted};

use crate::ReplayEnding;
use crate::judging::{Replayed, judge_over_threads};
use crate::laws::replay_text_is_free_of_places;
use crate::lines::print_outcomes;
use crate::playing::play;
use crate::printer::Printer;
use crate::reading::read_heard;
use m17_crew::Crew;
use m17_house::laws as house_laws;
use m17_io::{Input, Sink};
use m17_plan::Plan;
use m17_reflect::HouseRefusal;
use m17_values::{Failed, NoMemory};
use std::alloc::Global;
use std::sync::Wait;
use std::thread::Threads;

/// Replays a trace, in one thread: reads it whole, has a reflector of this plan hear it again, entry by entry, and writes
/// a line for each entry, or with `summary` one page of counts. Nothing is written before the input was read to its end.
/// The input is refused with the place and reason of the form of traces; the answer says how the run ended, and the last
/// line is the caller's to write. `NoMemory` where there is none, before an entry is heard.
pub fn replay<S: Input<K>, K: Sink>(
    alloc: Global,
    plan: &Plan,
    summary: bool,
    input: &mut S,
    out: &mut K,
) -> Result<ReplayEnding, NoMemory>
    requires { IsPlan plan.now }
    // A device is told to have failed exactly where its count of faults rose.
    ensures causes { IfOk result (λ ending. HasCauses ((S.told input.old).faults, (K.told out.old).faults)
        ((S.told input.new).faults, (K.told out.new).faults) (failed_device ending)) }
    // What the ending says of the input holds, and what it prints stands written.
    ensures ended { IfOk result (λ ending. (bytes : List ℕ) → (S.told input.old).left ≡ Some bytes →
        ComesToReplay plan.now summary ending
        (streams bytes (S.told input.new).left (K.told out.old).written (K.told out.new).written)) }
    ensures appended { Grows (K.told out.old).written (K.told out.new).written }
    // Nothing was written of an input that is refused, or where the source failed, whatever the source tells.
    ensures unwritten { IfOk result (λ ending. EndsBeforeText ending →
        (K.told out.new).written ≡ (K.told out.old).written) }
    // There is no crew that could refuse a start.
    ensures no_crew { IfOk result (λ ending. ending ≢ CrewRefused) }
    // Want of memory comes before anything was written, and no device has failed then.
    ensures untouched { OnErr result ((K.told out.new).written ≡ (K.told out.old).written) }
    ensures no_fault { OnErr result (((S.told input.new).faults ≡ (S.told input.old).faults)
        × ((K.told out.new).faults ≡ (K.told out.old).faults)) }
{
    let heard = match read_heard(alloc, input, out) {
        Ok(Ok(heard)) => heard,
        Ok(Err(ending)) => return Ok(ending),
        Err(no_memory) => return Err(no_memory),
    };
    match play(alloc, plan, summary, &heard, out) {
        Ok(ending) => Ok(ending),
        Err(no_memory) => Err(no_memory),
    }
}

/// The same over threads: the reflector of this plan hears the trace again patiently, each of its parts in a thread of its
/// own. What it prints is the same text. `CrewRefused` where the crew refuses to start a thread, before an entry is heard.
pub fn replay_over_threads<
    S: Input<K>,
    K: Sink,
    C: Crew,
    R: Threads + Wait + Copy + Send + 'static,
>(
    rt: &R,
    alloc: Global,
    plan: &Plan,
    summary: bool,
    crew: &mut C,
    input: &mut S,
    out: &mut K,
) -> Result<ReplayEnding, NoMemory>
    requires { IsPlan plan.now }
    // A device is told to have failed exactly where its count of faults rose.
    ensures causes { IfOk result (λ ending. HasCauses ((S.told input.old).faults, (K.told out.old).faults)
        ((S.told input.new).faults, (K.told out.new).faults) (failed_device ending)) }
    // What the ending says of the input holds, and what it prints stands written.
    ensures ended { IfOk result (λ ending. (bytes : List ℕ) → (S.told input.old).left ≡ Some bytes →
        ComesToReplay plan.now summary ending
        (streams bytes (S.told input.new).left (K.told out.old).written (K.told out.new).written)) }
    ensures appended { Grows (K.told out.old).written (K.told out.new).written }
    // Nothing was written of an input that is refused, or where the source failed, whatever the source tells.
    ensures unwritten { IfOk result (λ ending. EndsBeforeText ending →
        (K.told out.new).written ≡ (K.told out.old).written) }
    // A refused start is told exactly where the crew's count of refusals rose.
    ensures crew { MatchResult result
        (λ ending. TellsCrew ending (C.refusals crew.old) (C.refusals crew.new))
        (λ _. C.refusals crew.new ≡ C.refusals crew.old) }
    // Want of memory comes before the crew is asked for anything: no thread was started, and no entry was heard.
    ensures unasked { OnErr result (crew.new ≡ crew.old) }
    // Nor was anything written, and no device has failed then.
    ensures untouched { OnErr result ((K.told out.new).written ≡ (K.told out.old).written) }
    ensures no_fault { OnErr result (((S.told input.new).faults ≡ (S.told input.old).faults)
        × ((K.told out.new).faults ≡ (K.told out.old).faults)) }
{
    let heard = match read_heard(alloc, input, out) {
        Ok(Ok(heard)) => heard,
        Ok(Err(stopped)) => return Ok(stopped),
        Err(no_memory) => return Err(no_memory),
    };
    match judge_over_threads(rt, alloc, plan, summary, heard, crew) {
        Ok(replayed) => Ok(print(summary, &replayed, out)),
        Err(HouseRefusal::Crew) => Ok(ReplayEnding::CrewRefused),
        Err(HouseRefusal::NoMemory) => Err(NoMemory),
    }
}

// Prints what was judged of a trace, and answers how the run ends.
fn print<K: Sink>(summary: bool, replayed: &Replayed, out: &mut K) -> ReplayEnding
    requires can { CanPrint replayed.now }
    ensures printed { (plan : Plan) (heard : List Heard) → IsJudged plan summary heard replayed.now →
        IsPrinted plan summary heard result (K.told out.old) (K.told out.new) }
    ensures late { EndsBeforeText result → ⊥ }
    ensures no_crew { result ≢ CrewRefused }
{
    house_laws::a_replay_there_is();
    replay_text_is_free_of_places();
    let mut printer = Printer::new(summary);
    print_outcomes(&replayed.outcomes, replayed.count, &mut printer, out);
    let printed = printer.finish(&replayed.named, &replayed.mouth, out);
    ending_of(printed, replayed.lost)
}

// How a run ends whose trace was replayed.
pub(crate) fn ending_of(printed: Result<(), Failed>, lost: bool) -> ReplayEnding
    ensures ending { result ≡ judged_ending printed lost }
    ensures late { EndsBeforeText result → ⊥ }
    ensures no_crew { result ≢ CrewRefused }
{
    match printed {
        Ok(()) => {
            if lost {
                ReplayEnding::LinkLost
            } else {
                ReplayEnding::Finished
            }
        }
        Err(_) => ReplayEnding::WriteFailed,
    }
}
