//! How the ends of a lane come back together, and what is left in it.
ghost use Rattle.std.specs.Prelude.{◌≡◌, ◌<◌, ◌+◌, ◌^◌, ◌++◌, ◌∷◌, [], List, length, MatchOption};
ghost use Rattle.std.specs.Arc.{arc_value};
ghost use Rattle.crossbeam_queue.specs.Passes.{view as knows, IsPassOf, IsSamePass};
ghost use Rattle.m17_lane.specs.Ends.{AreOf, logs_of, refused_of, left_of};
ghost use Rattle.m17_lane.specs.Orders.{items_of, IsWhole};
ghost use Rattle.m17_lane.specs.Rule.{with_back, IsPopper};

use crate::lane::Lane;
use crate::popper::Popper;
use crate::pusher::Pusher;
use crate::rule::{Hand, Leaves, Return};
use crossbeam_queue::Pass;
use std::alloc::Global;
use std::marker::Model;
use std::sync::{Arc, Wait};

/// A lane whose ends are all taken back. Contracts see all that was pushed, in the order of the queue, each item with its
/// producer's number; the items that were popped; and for each pusher, in the order handed in, its number with what it
/// pushed, and what it got back.
#[derive(Drop)]
pub struct Trail<T> {
    lane: Arc<Lane<T>, Global>,
    pass: Pass<T, Hand<T>>,
}

impl<T> Model for Trail<T> {
    ghost use Rattle.std.specs.Prelude.{◌≡◌, ◌^◌};
    ghost use Rattle.std.specs.Arc.{arc_value};
    ghost use Rattle.crossbeam_queue.specs.Passes.{view as knows, IsPassOf};
    ghost use Rattle.m17_lane.specs.Ends.{TrailEnd};
    ghost use Rattle.m17_lane.specs.Rule.{IsPopper};

    ghost Value = { TrailEnd T };

    ghost view = { λ t. record {
      order = (knows t.pass).seen;
      popped = (knows t.pass).got;
      logs = (knows t.pass).logs;
      refused = (knows t.pass).refused;
    } };

    ghost invariant = { λ t. IsPassOf (arc_value t.lane).line t.pass
        × IsPopper (knows t.pass)
        × ((knows t.pass).parts ≡ 2 ^ 32) };
}

impl<T> Trail<T> {
    /// The next item that was pushed and not popped, in the order of the queue. None exactly where all is popped.
    pub fn left<R: Wait>(&mut self, rt: &R) -> Option<T>
        ensures left { MatchOption result (self.new ≡ self.old)
            (λ x. self.new ≡ left_of self.old x) }
        ensures all_popped { MatchOption result (items_of self.old.order ≡ self.old.popped)
            (λ x. (rest : List T) × (items_of self.old.order ≡ self.old.popped ++ x ∷ rest)) }
    {
        let lane = &self.lane;
        lane.line.pop_as::<Leaves, R>(rt, &mut self.pass)
    }
}

/// Takes all ends of one lane back, from whichever threads they came. The trail shows each pusher's items and refused
/// items in the order handed in, and the popped items as the first part of the order, of which each pusher's items are
/// its part. It waits for nothing.
pub fn finish<T: Drop>(pushers: Vec<Pusher<T>>, popper: Popper<T>) -> Trail<T>
    requires of_one_lane { AreOf popper.lane pushers.items }
    requires all { length pushers.items ≡ popper.producers }
    ensures logs { result.logs ≡ logs_of pushers.items }
    ensures refused { result.refused ≡ refused_of pushers.items }
    ensures popped { result.popped ≡ popper.popped }
    ensures whole { (rest : List T) × IsWhole result.logs result.popped result.order rest }
{
    let mut pushers = pushers;
    let Popper {
        lane,
        mut pass,
        rounds: _,
    } = popper;
    while let Some(pusher) = pushers.pop() {
        take_back(&lane, &mut pass, pusher);
    }
    lane.line.learn_as::<Leaves>(&mut pass);
    Trail { lane, pass }
}

/// `finish` for a lane of one producer: the order is what the pusher pushed, and what was popped is the first part of it.
pub fn finish_one<T: Drop>(pusher: Pusher<T>, popper: Popper<T>) -> Trail<T>
    requires of_one_lane { pusher.lane ≡ popper.lane }
    requires only { popper.producers ≡ 1 }
    ensures logs { result.logs ≡ (pusher.number, pusher.pushed) ∷ [] }
    ensures refused { result.refused ≡ pusher.refused ∷ [] }
    ensures popped { result.popped ≡ popper.popped }
    ensures whole { (rest : List T) × IsWhole result.logs result.popped result.order rest }
    ensures order { items_of result.order ≡ pusher.pushed }
    ensures settled { (rest : List T) × (pusher.pushed ≡ popper.popped ++ rest) }
{
    let Popper {
        lane,
        mut pass,
        rounds: _,
    } = popper;
    take_back(&lane, &mut pass, pusher);
    lane.line.learn_as::<Leaves>(&mut pass);
    Trail { lane, pass }
}

// Joins a pusher's pass to the popper's, and lets the pusher's share of the lane go.
fn take_back<T: Drop>(lane: &Lane<T>, pass: &mut Pass<T, Hand<T>>, pusher: Pusher<T>)
    requires pass { IsPassOf lane.now.line pass.old }
    requires same_lane { pusher.lane ≡ pass.old.table_id }
    requires popper { IsPopper (knows pass.old) }
    requires some_part { 0 < (knows pass.old).parts }
    ensures pass { IsSamePass pass.old pass.new }
    ensures back { knows pass.new ≡ with_back (knows pass.old) pusher (knows pass.new).seen }
{
    let Pusher {
        lane: _,
        pass: other,
    } = pusher;
    lane.line.absorb::<Return>(pass, other);
}
