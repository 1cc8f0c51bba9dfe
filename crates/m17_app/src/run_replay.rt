ghost use Rattle.std.specs.Prelude.{◌≡◌, ℕ, false, true};
ghost use Rattle.m17_plan.specs.Planned.{IsPlan};
ghost use Rattle.m17_app.specs.Replayed.{replay_terms};
ghost use Rattle.m17_app.specs.Status.{beside, count_from, streams};
ghost use Rattle.m17_app.specs.Terms.{RunsCommand};

use crate::conclude::conclude;
use crate::status::Status;
use m17_book::laws::traces_are_exact;
use m17_crew::Crew;
use m17_io::{Input, Sink};
use m17_plan::Plan;
use m17_replay::laws::lost_by_sixteen_faults;
use m17_replay::{replay, replay_over_threads};
use std::alloc::Global;
use std::sync::Wait;
use std::thread::Threads;

// Runs `replay` to its last line. In one thread, or over threads where they are asked for.
pub fn run_replay<R: Threads + Wait + Copy + Send + 'static, C: Crew, S: Input<K>, K: Sink>(
    rt: &R,
    alloc: Global,
    plan: &Plan,
    summary: bool,
    threads: bool,
    crew: &mut C,
    input: &mut S,
    out: &mut K,
) -> Status
    requires { IsPlan plan.now }
    ensures runs { (ports : ℕ) → RunsCommand (replay_terms plan.now summary threads
        (count_from (C.refusals crew.old) (C.refusals crew.new))) result
        (streams (S.told input.old) (K.told out.old)) (streams (S.told input.new) (K.told out.new))
        (beside (count_from ports ports)
        (count_from (C.refusals crew.old) (C.refusals crew.new))) }
    ensures unasked { result ≡ Status.NoMemory → crew.new ≡ crew.old }
    ensures idle { threads ≡ false → crew.new ≡ crew.old }
{
    if threads {
        run_over_threads(rt, alloc, plan, summary, crew, input, out)
    } else {
        run_in_one_thread(alloc, plan, summary, input, out)
    }
}

// The same over threads.
fn run_over_threads<R: Threads + Wait + Copy + Send + 'static, C: Crew, S: Input<K>, K: Sink>(
    rt: &R,
    alloc: Global,
    plan: &Plan,
    summary: bool,
    crew: &mut C,
    input: &mut S,
    out: &mut K,
) -> Status
    requires { IsPlan plan.now }
    ensures runs { (ports : ℕ) → RunsCommand (replay_terms plan.now summary true
        (count_from (C.refusals crew.old) (C.refusals crew.new))) result
        (streams (S.told input.old) (K.told out.old)) (streams (S.told input.new) (K.told out.new))
        (beside (count_from ports ports)
        (count_from (C.refusals crew.old) (C.refusals crew.new))) }
    ensures unasked { result ≡ Status.NoMemory → crew.new ≡ crew.old }
{
    traces_are_exact();
    lost_by_sixteen_faults();
    match replay_over_threads(rt, alloc, plan, summary, crew, input, out) {
        Ok(ended) => conclude(out, &ended.into_ending()),
        Err(_no_memory) => Status::NoMemory,
    }
}

// The same in one thread, with no crew.
fn run_in_one_thread<S: Input<K>, K: Sink>(
    alloc: Global,
    plan: &Plan,
    summary: bool,
    input: &mut S,
    out: &mut K,
) -> Status
    requires { IsPlan plan.now }
    ensures { (ports crew : ℕ) → RunsCommand
        (replay_terms plan.now summary false (count_from crew crew)) result
        (streams (S.told input.old) (K.told out.old)) (streams (S.told input.new) (K.told out.new))
        (beside (count_from ports ports) (count_from crew crew)) }
{
    traces_are_exact();
    lost_by_sixteen_faults();
    match replay(alloc, plan, summary, input, out) {
        Ok(ending) => conclude(out, &ending.into_ending()),
        Err(_) => Status::NoMemory,
    }
}
