//! How all groups are started and joined.
ghost use Rattle.std.specs.Prelude.{◌≡◌, ◌++◌, [], ◌∷◌, List, MatchResult, OnOk, OnErr, reverse, vec_capacity};
ghost use Rattle.std.specs.List.{AllZip};
ghost use Rattle.m17_io.specs.Faults.{HasCause};
ghost use Rattle.m17_ports.specs.Ports.{next_number};
ghost use Rattle.m17_crew.specs.declared.order.Order.TheVariants.{Go, Quit, Stop};
ghost use Rattle.m17_crew.specs.Laws.{Ran};
ghost use Rattle.m17_lane.specs.Rows.{push_each};
ghost use Rattle.m17_reflect.specs.Groups.{staff, CanStart, IsUnderway, WereTold};

use crate::Group;
use m17_crew::{Crew, Order, Work};
use m17_values::Failed;
use std::alloc::Global;
use std::sync::Wait;
use std::thread::Threads;

/// Starts all jobs of three groups, each in a thread of its own. Where that went well, each is told to go; those of the
/// first two groups are joined, and then those of the third are told to stop, and joined. `Failed` where the crew refused
/// a start: all are told to quit then, those that were started are joined, and each job is as it was or has only quit.
/// Each job comes back in its place. It waits for the jobs, and for ever where one doesn't end.
pub fn launch<V: Work, W: Work, S: Work, C: Crew, R: Threads + Wait + Copy + Send + 'static>(
    rt: &R,
    alloc: Global,
    crew: &mut C,
    first: &mut Group<V>,
    second: &mut Group<W>,
    last: &mut Group<S>,
) -> Result<(), Failed>
    requires first { CanStart V.ready first.old.jobs.items first.old.running.items
        (vec_capacity first.old.running) }
    requires second { CanStart W.ready second.old.jobs.items second.old.running.items
        (vec_capacity second.old.running) }
    requires last { CanStart S.ready last.old.jobs.items last.old.running.items
        (vec_capacity last.old.running) }
    ensures first { let was = staff first.old.jobs.items first.old.orders.items in
        let is = staff first.new.jobs.items first.new.orders.items in
        MatchResult result (λ _. WereTold V.does (Go ∷ []) was is)
        (λ _. WereTold (Ran V.does) (Quit ∷ []) was is) }
    ensures second { let was = staff second.old.jobs.items second.old.orders.items in
        let is = staff second.new.jobs.items second.new.orders.items in
        MatchResult result (λ _. WereTold W.does (Go ∷ []) was is)
        (λ _. WereTold (Ran W.does) (Quit ∷ []) was is) }
    ensures last { let was = staff last.old.jobs.items last.old.orders.items in
        let is = staff last.new.jobs.items last.new.orders.items in
        MatchResult result (λ _. WereTold S.does (Go ∷ Stop ∷ []) was is)
        (λ _. WereTold (Ran S.does) (Quit ∷ []) was is) }
    ensures cause { HasCause (C.refusals crew.old) (C.refusals crew.new) result }
    ensures once { OnErr result (C.refusals crew.new ≡ next_number (C.refusals crew.old)) }
{
    m17_lane::rows_laws::rows_push::<Order>();
    match start_groups(rt, alloc, crew, first, second, last) {
        Ok(()) => {
            first.tell(rt, Order::Go);
            second.tell(rt, Order::Go);
            last.tell(rt, Order::Go);
            first.join(rt, second, last);
            second.join(rt, first, last);
            stop_last(rt, first, second, last);
            last.join(rt, first, second);
            Ok(())
        }
        Err(Failed) => {
            quit(rt, first, second, last);
            Err(Failed)
        }
    }
}

// Starts the jobs of all groups, up to the first that is refused.
fn start_groups<V: Work, W: Work, S: Work, C: Crew, R: Threads + Wait + Copy + Send + 'static>(
    rt: &R,
    alloc: Global,
    crew: &mut C,
    first: &mut Group<V>,
    second: &mut Group<W>,
    last: &mut Group<S>,
) -> Result<(), Failed>
    requires first { CanStart V.ready first.old.jobs.items first.old.running.items
        (vec_capacity first.old.running) }
    requires second { CanStart W.ready second.old.jobs.items second.old.running.items
        (vec_capacity second.old.running) }
    requires last { CanStart S.ready last.old.jobs.items last.old.running.items
        (vec_capacity last.old.running) }
    ensures first { IsUnderway first.old.jobs.items first.new.jobs.items first.new.running.items
        (vec_capacity first.new.jobs) }
    ensures second { IsUnderway second.old.jobs.items second.new.jobs.items second.new.running.items
        (vec_capacity second.new.jobs) }
    ensures last { IsUnderway last.old.jobs.items last.new.jobs.items last.new.running.items
        (vec_capacity last.new.jobs) }
    ensures all { OnOk result ((first.new.jobs.items ≡ []) × (second.new.jobs.items ≡ [])
        × (last.new.jobs.items ≡ [])) }
    ensures orders { (first.new.orders ≡ first.old.orders)
        × (second.new.orders ≡ second.old.orders) × (last.new.orders ≡ last.old.orders) }
    ensures cause { HasCause (C.refusals crew.old) (C.refusals crew.new) result }
    ensures once { OnErr result (C.refusals crew.new ≡ next_number (C.refusals crew.old)) }
{
    first.start(rt, alloc, crew)?;
    second.start(rt, alloc, crew)?;
    last.start(rt, alloc, crew)
}

// Tells the jobs of all groups to quit, and joins those that run.
fn quit<V: Work, W: Work, S: Work, R: Threads + Wait>(
    rt: &R,
    first: &mut Group<V>,
    second: &mut Group<W>,
    last: &mut Group<S>,
)
    requires first { (jobs : List V) × IsUnderway jobs first.old.jobs.items first.old.running.items
        (vec_capacity first.old.jobs) }
    requires second { (jobs : List W) × IsUnderway jobs second.old.jobs.items
        second.old.running.items (vec_capacity second.old.jobs) }
    requires last { (jobs : List S) × IsUnderway jobs last.old.jobs.items last.old.running.items
        (vec_capacity last.old.jobs) }
    ensures first { (jobs : List V)
        → jobs ≡ first.old.jobs.items ++ reverse first.old.running.items
        → AllZip (Ran V.does) jobs first.new.jobs.items }
    ensures second { (jobs : List W)
        → jobs ≡ second.old.jobs.items ++ reverse second.old.running.items
        → AllZip (Ran W.does) jobs second.new.jobs.items }
    ensures last { (jobs : List S)
        → jobs ≡ last.old.jobs.items ++ reverse last.old.running.items
        → AllZip (Ran S.does) jobs last.new.jobs.items }
    ensures orders { let quits = push_each (λ _. Quit ∷ []) 0 in
        (first.new.orders.items ≡ quits first.old.orders.items)
        × (second.new.orders.items ≡ quits second.old.orders.items)
        × (last.new.orders.items ≡ quits last.old.orders.items) }
{
    first.tell(rt, Order::Quit);
    second.tell(rt, Order::Quit);
    last.tell(rt, Order::Quit);
    first.join(rt, second, last);
    second.join(rt, first, last);
    last.join(rt, first, second);
}

// Tells the jobs of the last group to stop. It is handed the other groups because they have to be joined first.
fn stop_last<V: Work, W: Work, S: Work, R: Wait>(
    rt: &R,
    first: &Group<V>,
    second: &Group<W>,
    last: &mut Group<S>,
)
    requires first { first.now.running.items ≡ [] }
    requires second { second.now.running.items ≡ [] }
    ensures orders { last.new.orders.items ≡ push_each (λ _. Stop ∷ []) 0 last.old.orders.items }
    ensures jobs { last.new.jobs ≡ last.old.jobs }
    ensures running { last.new.running ≡ last.old.running }
{
    let _ = first;
    let _ = second;
    last.tell(rt, Order::Stop);
}
