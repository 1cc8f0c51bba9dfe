//! A replay in one thread: what an entry comes to is printed as soon as it is heard.
ghost use Rattle.std.specs.Prelude.{◌≡◌, ◌≢◌, ◌<◌, ◌^◌, [], length, IfOk, OnErr};
ghost use Rattle.m17_book.specs.Answers.{HasEnd};
ghost use Rattle.m17_house.specs.Hearing.{HasHeard};
ghost use Rattle.m17_house.specs.Replay.{EndsSomewhere};
ghost use Rattle.m17_plan.specs.Planned.{IsPlan};
ghost use Rattle.m17_port_memory.specs.Peers.{named_in};
ghost use Rattle.m17_replay.specs.Replay.{EndsBeforeText};
ghost use Rattle.m17_replay.specs.declared.ending.ReplayEnding.TheVariants.{CrewRefused};
ghost use Rattle.m17_replay.specs.Run.{HasTaken, IsPlayed, IsPrinted};

use crate::ReplayEnding;
use crate::hearing::is_fault;
use crate::peers::{make_mouth, name_heard};
use crate::printer::Printer;
use crate::replay_command::ending_of;
use m17_directory::LinkVerdict;
use m17_house::Run;
use m17_io::Sink;
use m17_plan::Plan;
use m17_port_memory::TallyMouth;
use m17_values::{Heard, NoMemory};
use std::alloc::Global;

// Replays what was heard, and prints what it comes to, line by line, or a summary at its end. All that it needs is made before
// the first entry is heard.
pub(crate) fn play<K: Sink>(
    alloc: Global,
    plan: &Plan,
    summary: bool,
    heard: &[Heard],
    out: &mut K,
) -> Result<ReplayEnding, NoMemory>
    requires plan { IsPlan plan.now }
    requires ends { HasEnd heard.now }
    ensures printed { IfOk result (λ ending.
        IsPrinted plan.now summary heard.now ending (K.told out.old) (K.told out.new)) }
    ensures late { IfOk result (λ ending. EndsBeforeText ending → ⊥) }
    ensures no_crew { IfOk result (λ ending. ending ≢ CrewRefused) }
    ensures untouched { OnErr result (K.told out.new ≡ K.told out.old) }
{
    let named = name_heard(alloc, summary, heard)?;
    let mut mouth = make_mouth(alloc, &named)?;
    let mut run = Run::make(alloc, plan)?;
    let mut printer = Printer::new(summary);
    let lost = hear_each(&mut run, plan, heard, &mut mouth, &mut printer, out);
    let printed = printer.finish(&named, &mouth, out);
    Ok(ending_of(printed, lost))
}

// Hears entry by entry, up to the first that ends the link, and hands on what each comes to. Answers whether the link was
// lost.
fn hear_each<K: Sink>(
    run: &mut Run,
    plan: &Plan,
    heard: &[Heard],
    mouth: &mut TallyMouth,
    printer: &mut Printer,
    out: &mut K,
) -> bool
    requires ends { EndsSomewhere heard.now }
    requires run { HasHeard plan.now [] [] run.old mouth.old }
    requires printer { HasTaken printer.old [] (K.told out.old) (K.told out.old) }
    ensures summary { printer.new.summary ≡ printer.old.summary }
    ensures same_peers { named_in mouth.new.entries ≡ named_in mouth.old.entries }
    ensures played { IsPlayed plan.now heard.now printer.new mouth.new result
        (K.told out.old) (K.told out.new) }
{
    let _few = count(heard);
    for (index, h) in heard.iter().enumerate() {
        let mut verdict = LinkVerdict::Timed;
        let packet = run.hear(plan, index as u64, h, mouth, &mut verdict);
        if run.has_ended() {
            let lost = is_fault(h);
            printer.take_last(lost, &verdict, &packet, out);
            return lost;
        }
        printer.take(&verdict, &packet, out);
    }
    false
}

// No memory holds more entries than positions can count.
fn count(heard: &[Heard]) -> usize
    ensures count { result ≡ length heard.now }
    ensures few { length heard.now < 2 ^ 58 }
{
    heard.len()
}
