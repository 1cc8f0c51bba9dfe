//! A group of jobs of one kind.
ghost use Rattle.std.specs.Prelude.{◌≡◌, ◌≤◌, ◌++◌, [], ◌∷◌, List, OnOk, OnErr, reverse, vec_capacity};
ghost use Rattle.std.specs.List.{AllZip};
ghost use Rattle.m17_io.specs.Faults.{HasCause};
ghost use Rattle.m17_ports.specs.Ports.{next_number};
ghost use Rattle.m17_crew.specs.Laws.{Ran};
ghost use Rattle.m17_lane.specs.Rows.{push_each};
ghost use Rattle.m17_reflect.specs.Groups.{AreTold, CanStart, IsUnderway};

use m17_crew::{Crew, Order, Running, Work, join_all, start_all};
use m17_lane::{Pusher, push_at};
use m17_values::Failed;
use std::alloc::Global;
use std::sync::Wait;
use std::thread::Threads;

/// Jobs of one kind, with the end of each one's orders, in the same order, and room for them to run.
#[derive(Drop)]
pub struct Group<W: Work> {
    /// The jobs, while they do not run.
    pub jobs: Vec<W>,
    /// The ends of the jobs' orders.
    pub orders: Vec<Pusher<Order>>,
    /// The jobs, while they run.
    pub running: Vec<Running<W>>,
}

impl<W: Work> Group<W> {
    // Starts the jobs, up to the first that is refused.
    pub(crate) fn start<C: Crew, R: Threads + Wait + Copy + Send + 'static>(
        &mut self,
        rt: &R,
        alloc: Global,
        crew: &mut C,
    ) -> Result<(), Failed>
        requires { CanStart W.ready self.old.jobs.items self.old.running.items
            (vec_capacity self.old.running) }
        ensures underway { IsUnderway self.old.jobs.items self.new.jobs.items
            self.new.running.items (vec_capacity self.new.jobs) }
        ensures all { OnOk result (self.new.jobs.items ≡ []) }
        ensures orders { self.new.orders ≡ self.old.orders }
        ensures cause { HasCause (C.refusals crew.old) (C.refusals crew.new) result }
        ensures once { OnErr result (C.refusals crew.new ≡ next_number (C.refusals crew.old)) }
    {
        start_all(rt, alloc, crew, &mut self.jobs, &mut self.running)
    }

    // Tells each job the order; waits while its lane is full.
    pub(crate) fn tell<R: Wait>(&mut self, rt: &R, order: Order)
        ensures orders { self.new.orders.items ≡ push_each (λ _. order ∷ []) 0 self.old.orders.items }
        ensures jobs { self.new.jobs ≡ self.old.jobs }
        ensures running { self.new.running ≡ self.old.running }
    {
        m17_lane::rows_laws::rows_push::<Order>();
        for at in 0..self.orders.len() {
            push_at(rt, &mut self.orders, at, order);
        }
    }

    // Waits for the jobs that run; they come back behind those that were left. It is handed the other groups because the
    // jobs of all three are to be told an order before any is waited for.
    pub(crate) fn join<V: Work, X: Work, R: Threads + Wait>(
        &mut self,
        rt: &R,
        one: &Group<V>,
        other: &Group<X>,
    )
        requires underway { (jobs : List W) × IsUnderway jobs self.old.jobs.items
            self.old.running.items (vec_capacity self.old.jobs) }
        requires told { AreTold self.old.orders.items }
        requires one_told { AreTold one.now.orders.items }
        requires other_told { AreTold other.now.orders.items }
        ensures back { (jobs : List W) → jobs ≡ self.old.jobs.items ++ reverse self.old.running.items
            → AllZip (Ran W.does) jobs self.new.jobs.items }
        ensures done { (jobs : List W) → jobs ≡ self.old.jobs.items ++ reverse self.old.running.items
            → self.old.jobs.items ≡ [] → AllZip W.does jobs self.new.jobs.items }
        ensures none { self.new.running.items ≡ [] }
        ensures orders { self.new.orders ≡ self.old.orders }
    {
        m17_crew::laws::jobs_come_back_in_order::<W>();
        m17_crew::laws::all_jobs_come_back_done::<W>();
        let _ = one;
        let _ = other;
        join_all(rt, &mut self.running, &mut self.jobs);
    }
}
