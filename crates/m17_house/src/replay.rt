ghost use Rattle.std.specs.Prelude.{◌≡◌, ◌^◌, ◌<◌, ◌≤◌, [], length, IfOk, OnErr, vec_capacity};
ghost use Rattle.m17_house.specs.Hearing.{HasHeard};
ghost use Rattle.m17_house.specs.Replay.{EndsSomewhere, IsReplayed, HasNoTallies};
ghost use Rattle.m17_plan.specs.Planned.{IsPlan};
ghost use Rattle.m17_house.specs.Tallied.{IsSameMouth};
ghost use Rattle.m17_port_memory.specs.Peers.{named_in};

use crate::run::Run;
use m17_directory::LinkVerdict;
use m17_floor::Verdict;
use m17_plan::Plan;
use m17_port_memory::TallyMouth;
use m17_values::{Heard, NoMemory};
use std::alloc::Global;

// No memory holds more entries than positions can count.
fn count(heard: &[Heard]) -> usize
    ensures count { result ≡ length heard.now }
    ensures few { length heard.now < 2 ^ 58 }
{
    heard.len()
}

// Hears entry by entry, up to the first that ends the link.
fn play(
    run: &mut Run,
    plan: &Plan,
    heard: &[Heard],
    mouth: &mut TallyMouth,
    verdicts: &mut Vec<LinkVerdict>,
    packets: &mut Vec<Option<Verdict>>,
)
    requires run { HasHeard plan.now [] [] run.old mouth.old }
    requires ends { EndsSomewhere heard.now }
    requires verdicts { (verdicts.old.items ≡ []) × (length heard.now ≤ vec_capacity verdicts.old) }
    requires packets { (packets.old.items ≡ []) × (length heard.now ≤ vec_capacity packets.old) }
    ensures judged { IsReplayed plan.now heard.now verdicts.new.items packets.new.items mouth.new }
    ensures mouth { IsSameMouth mouth.old mouth.new }
{
    let _few = count(heard);
    for (index, h) in heard.iter().enumerate() {
        let mut verdict = LinkVerdict::Timed;
        let packet = run.hear(plan, index as u64, h, mouth, &mut verdict);
        verdicts.push_reserved(verdict);
        packets.push_reserved(packet);
        if run.has_ended() {
            return;
        }
    }
}

/// Replays what one link heard, in one thread: what each entry becomes, up to the first that ends the link, with lists
/// in place of queues and no room that runs out. A peer that asks gets the least place that no other known peer has, as
/// the next member of that place, and is greeted at once; where none is free it is turned away. What the modules give
/// and what is answered past them is said on the mouth, which keeps its tallies. Answers of each entry heard the link's
/// verdict, and the floor rule's verdict on its packet, if it was routed to a module as one. `NoMemory` where there is
/// none for the modules or the verdicts; the mouth is as it was then. Nothing allocates once the first entry is heard.
pub fn replay_plain(
    alloc: Global,
    plan: &Plan,
    heard: &[Heard],
    mouth: &mut TallyMouth,
) -> Result<(Vec<LinkVerdict>, Vec<Option<Verdict>>), NoMemory>
    requires plan { IsPlan plan.now }
    requires ends { EndsSomewhere heard.now }
    requires nothing_said { HasNoTallies mouth.old }
    ensures judged { IfOk result (λ out.
        IsReplayed plan.now heard.now out.0.items out.1.items mouth.new) }
    ensures same_peers { IfOk result
        (λ _. named_in mouth.new.entries ≡ named_in mouth.old.entries) }
    ensures same_mouth { IfOk result (λ _. mouth.new.number ≡ mouth.old.number) }
    ensures untouched { OnErr result (mouth.new ≡ mouth.old) }
{
    let mut run = Run::make(alloc, plan)?;
    let mut verdicts = Vec::with_capacity(alloc, heard.len())?;
    let mut packets = Vec::with_capacity(alloc, heard.len())?;
    play(&mut run, plan, heard, mouth, &mut verdicts, &mut packets);
    Ok((verdicts, packets))
}
