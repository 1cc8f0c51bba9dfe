ghost use Rattle.std.specs.Prelude.{◌≡◌, ◌≤◌, List, [], length, map};
ghost use Rattle.std.specs.List.{range_with_len};
ghost use Rattle.m17_io.specs.Faults.{HasCause};
ghost use Rattle.m17_io.specs.Sink.{SinkTold};
ghost use Rattle.m17_directory.specs.Entries.{Entry};
ghost use Rattle.m17_plan.specs.declared.plan.Plan.{Plan};
ghost use Rattle.m17_replay.specs.Replay.{outcome_of};
ghost use Rattle.m17_replay.specs.Run.{AreVerdicts, HasTaken, Writes};

use crate::Outcomes;
use crate::printer::Printer;
use m17_io::Sink;
use m17_print::Line;
use m17_values::Failed;

// Writes a line that was made.
pub(crate) fn write_line<K: Sink>(line: &Line, out: &mut K) -> Result<(), Failed>
    ensures cause { HasCause (K.told out.old).faults (K.told out.new).faults result }
    ensures writes { Writes result line.now (K.told out.old).written (K.told out.new).written }
{
    out.write(line.bytes())
}

// Prints what the first `count` entries came to, as the tapes of a run have it.
pub(crate) fn print_outcomes<K: Sink>(
    outcomes: &Outcomes,
    count: usize,
    printer: &mut Printer,
    out: &mut K,
)
    requires there { (count ≤ length outcomes.now.verdicts)
        × (count ≤ length outcomes.now.packets) }
    requires count { printer.old.count ≡ 0 }
    ensures summary { printer.new.summary ≡ printer.old.summary }
    ensures taken { (plan : Plan) → (entries : List Entry) → (first : SinkTold) →
        AreVerdicts plan entries outcomes.now.verdicts outcomes.now.packets →
        HasTaken printer.old [] first (K.told out.old) →
        HasTaken printer.new (map (outcome_of plan entries) (range_with_len 0 count))
        first (K.told out.new) }
{
    for n in 0..count {
        printer.take(outcomes.verdict(n), &outcomes.packet(n), out);
    }
}
