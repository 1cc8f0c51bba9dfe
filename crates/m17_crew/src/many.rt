//! Many jobs of one type, started and joined together.
ghost use Rattle.std.specs.Prelude.{◌≡◌, ◌+◌, ◌<◌, ◌≤◌, List, [], ◌++◌, reverse, All, MatchResult, OnErr, vec_len, vec_capacity};
ghost use Rattle.std.specs.List.{AllZip};
ghost use Rattle.m17_io.specs.Faults.{HasCause};
ghost use Rattle.m17_ports.specs.Ports.{next_number};

use crate::{Crew, Running, Work};
use m17_values::Failed;
use std::alloc::Global;
use std::sync::Wait;
use std::thread::Threads;

/// Starts the jobs, the last first, each in a thread of its own, and appends them to `running`, which has to have room
/// for all. `Failed` where the crew refused one: it and the jobs before it are then still in `jobs`, as they were and
/// in their order, and those behind it run.
pub fn start_all<W: Work, C: Crew, R: Threads + Wait + Copy + Send + 'static>(
    rt: &R,
    alloc: Global,
    crew: &mut C,
    jobs: &mut Vec<W>,
    running: &mut Vec<Running<W>>,
) -> Result<(), Failed>
    requires ready { All W.ready jobs.old.items }
    requires room { vec_len running.old + vec_len jobs.old ≤ vec_capacity running.old }
    ensures jobs { jobs.old.items ++ reverse running.old.items
        ≡ jobs.new.items ++ reverse running.new.items }
    ensures number { vec_len jobs.new + vec_len running.new
        ≡ vec_len jobs.old + vec_len running.old }
    ensures all { MatchResult result (λ _. jobs.new.items ≡ []) (λ _. 0 < vec_len jobs.new) }
    ensures cause { HasCause (C.refusals crew.old) (C.refusals crew.new) result }
    ensures once { OnErr result (C.refusals crew.new ≡ next_number (C.refusals crew.old)) }
    ensures same_room { (vec_capacity jobs.new ≡ vec_capacity jobs.old)
        × (vec_capacity running.new ≡ vec_capacity running.old) }
{
    while let Some(job) = jobs.pop() {
        match crew.start(rt, alloc, job) {
            Ok(started) => running.push_reserved(started),
            Err(back) => {
                jobs.push_reserved(back);
                return Err(Failed);
            }
        }
    }
    Ok(())
}

/// Joins the jobs that run, the last first, and appends them to `jobs`, done, which has to have room for all. Where
/// `start_all` started them, they so end in their order, behind those that it could not start.
pub fn join_all<W: Work, R: Threads + Wait>(
    rt: &R,
    running: &mut Vec<Running<W>>,
    jobs: &mut Vec<W>,
)
    requires room { vec_len jobs.old + vec_len running.old ≤ vec_capacity jobs.old }
    ensures done { (ended : List W) × (jobs.new.items ≡ jobs.old.items ++ ended)
        × AllZip W.does (reverse running.old.items) ended }
    ensures all { running.new.items ≡ [] }
    ensures same_room { (vec_capacity jobs.new ≡ vec_capacity jobs.old)
        × (vec_capacity running.new ≡ vec_capacity running.old) }
{
    while let Some(started) = running.pop() {
        jobs.push_reserved(started.join(rt));
    }
}
