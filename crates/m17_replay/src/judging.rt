ghost use Rattle.std.specs.Prelude.{◌≡◌, ◌<◌, ◌-◌, length, slice_get, Some, IfOk, IfErr, MatchResult, if◌then◌else◌};
ghost use Rattle.m17_values.specs.declared.heard.Heard.{Heard};
ghost use Rattle.m17_book.specs.Answers.{HasEnd};
ghost use Rattle.m17_plan.specs.Planned.{IsPlan};
ghost use Rattle.m17_reflect.specs.declared.returned.HouseRefusal.TheVariants as refusals;
ghost use Rattle.m17_reflect.specs.Views.{IsRefusedFor};
ghost use Rattle.m17_replay.specs.Run.{is_fault_heard, kept_on, CanPrint, IsJudged, IsPreparedFor};

use crate::Outcomes;
use crate::hearing::{count_to_end, is_fault};
use crate::peers::{make_mouth, name_heard};
use crate::replaying::replay_over_threads;
use m17_crew::Crew;
use m17_plan::Plan;
use m17_port_memory::TallyMouth;
use m17_reflect::HouseRefusal;
use m17_values::{Heard, NoMemory, Peer};
use std::alloc::Global;
use std::sync::Wait;
use std::thread::Threads;

// What a replay came to, before it is printed.
#[derive(Drop)]
pub(crate) struct Replayed {
    // What each entry came to, and the floor rule's verdict on its packet, where it has one.
    pub outcomes: Outcomes,
    // What was said to each peer, where a summary is asked for.
    pub mouth: TallyMouth,
    // The peers that are named in the summary.
    pub named: Vec<Peer>,
    // Whether the link was lost.
    pub lost: bool,
    // How many entries were heard before the end.
    pub count: usize,
}

// What printing needs beside the verdicts and tallies, known before the replay.
#[derive(Drop)]
pub(crate) struct Page {
    // The peers that are named in the summary.
    pub named: Vec<Peer>,
    // Whether the link is lost.
    pub lost: bool,
    // How many entries are heard before the end.
    pub count: usize,
}

// Judges what was heard, over threads, once the peers of the summary are named, where one is asked for. All that printing
// needs is made before the crew is asked for anything.
pub(crate) fn judge_over_threads<C: Crew, R: Threads + Wait + Copy + Send + 'static>(
    rt: &R,
    alloc: Global,
    plan: &Plan,
    summary: bool,
    heard: Vec<Heard>,
    crew: &mut C,
) -> Result<Replayed, HouseRefusal>
    requires plan { IsPlan plan.now }
    requires ends { HasEnd heard.items }
    ensures judged { IfOk result (λ replayed. IsJudged plan.now summary heard.items replayed) }
    ensures can_print { IfOk result CanPrint }
    ensures cause { MatchResult result (λ _. C.refusals crew.new ≡ C.refusals crew.old)
        (λ why. IsRefusedFor why (C.refusals crew.old) (C.refusals crew.new)) }
    // Want of memory comes before the crew is asked for anything: no thread was started.
    ensures unasked { IfErr result (λ why. why ≡ refusals.NoMemory → crew.new ≡ crew.old) }
{
    let Ok((page, mouth)) = prepare(alloc, summary, &heard) else {
        return Err(HouseRefusal::NoMemory);
    };
    match replay_over_threads(rt, alloc, plan, heard, mouth, crew) {
        Ok(replay) => Ok(keep(page, replay.outcomes, replay.mouth)),
        Err(refused) => Err(refused.why),
    }
}

// All that printing needs of what was heard, and a mouth for its replay.
fn prepare(alloc: Global, summary: bool, heard: &[Heard]) -> Result<(Page, TallyMouth), NoMemory>
    requires { HasEnd heard.now }
    ensures { IfOk result (IsPreparedFor summary heard.now) }
{
    let front = &heard[..count_to_end(heard)];
    let lost = ends_in_fault(front);
    let count = count_heard(front.len(), lost);
    let named = name_heard(alloc, summary, heard)?;
    let mouth = make_mouth(alloc, &named)?;
    Ok((Page { named, lost, count }, mouth))
}

// What is kept of a replay for printing.
fn keep(page: Page, outcomes: Outcomes, mouth: TallyMouth) -> Replayed
    ensures { result ≡ kept_on page outcomes mouth }
{
    let Page { named, lost, count } = page;
    Replayed {
        outcomes,
        mouth,
        named,
        lost,
        count,
    }
}

// The last that was heard is that the socket failed.
fn ends_in_fault(heard: &[Heard]) -> bool
    ensures { (h : Heard) → slice_get heard.now (length heard.now - 1) ≡ Some h →
        result ≡ is_fault_heard h }
{
    match heard.last() {
        Some(one) => is_fault(one),
        None => false,
    }
}

// How many of these entries were heard before the end, by whether the link was lost.
fn count_heard(len: usize, lost: bool) -> usize
    requires some { 0 < len }
    ensures { result ≡ (if lost then len else len - 1) }
{
    if lost { len } else { len - 1 }
}
