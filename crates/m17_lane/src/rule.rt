//! The rule of a lane's queue: what each pass knows, and what its steps tell. These types are for the proofs alone; no
//! value of them is made, and a pass takes no bytes.
ghost use Rattle.std.specs.Prelude.{◌≡◌, List};

use crossbeam_queue::RuledArrayQueue;
use crossbeam_queue::protocol::{Join, Lesson, Outcome, Protocol, Split};
use std::collections::LinkedList;
use std::marker::{Brand, PhantomData};

/// What a pass knows. A pusher's has one part, its number and its list; the popper's has all parts that no pusher has.
pub struct Hand<T> {
    /// The share of 2^32 parts. Who has them all knows that every other pass is idle.
    pub parts: u64,
    pub pops: bool,
    /// How many producers the lane has.
    pub producers: u64,
    /// How many pushers were made, in the popper's view.
    pub made: u64,
    /// Numbers of producers, each with all that it pushed.
    pub logs: LinkedList<(u64, LinkedList<T>)>,
    pub got: LinkedList<T>,
    /// The longest beginning of the queue's order that this pass knows.
    pub seen: LinkedList<(u64, T)>,
    /// Beside each list of `logs` the items that its producer got back. The rule says nothing of them.
    pub refused: LinkedList<LinkedList<T>>,
}

/// The rule: each producer's list is its part of one order, what was popped begins it, and the queue holds the rest.
pub struct InOrder;

impl<T> Protocol<T, Hand<T>> for InOrder {
    ghost use Rattle.std.specs.Prelude.{◌^◌, []};
    ghost use Rattle.m17_lane.specs.Rule.{popper, IsLane};

    ghost holds = { λ items views. IsLane items views };

    ghost first = { popper (2 ^ 32) 0 0 [] [] [] [] };
}

pub type Line<T> = RuledArrayQueue<T, Hand<T>, InOrder>;

/// A push: the item joins the pusher's list. Of a refused one the only producer learns that what is queued is its own.
pub struct Puts;

impl<T> Outcome<T, Hand<T>> for Puts {
    ghost use Rattle.m17_lane.specs.Rule.{put_in};

    ghost then = { λ v x w. w ≡ put_in v x w.seen };
}

impl<T> Lesson<T, Hand<T>> for Puts {
    ghost use Rattle.std.specs.Prelude.{◌≡◌, ◌≤◌, length};
    ghost use Rattle.m17_lane.specs.Rule.{first_log};

    ghost fact = { λ v items. v.producers ≡ 1 → length items ≤ length (first_log v.logs) };
}

/// A pop: the item joins the popper's list.
pub struct Gets;

impl<T> Outcome<T, Hand<T>> for Gets {
    ghost use Rattle.m17_lane.specs.Rule.{got_by};

    ghost then = { λ v x w. w ≡ got_by v x };
}

impl<T> Lesson<T, Hand<T>> for Gets {
    ghost fact = { λ v items. Unit {0} };
}

/// A pop by the pass that has all parts: the item is the next of the order, and None says that there is none.
pub struct Leaves;

impl<T> Outcome<T, Hand<T>> for Leaves {
    ghost use Rattle.std.specs.Prelude.{◌≡◌, ◌++◌, ◌∷◌, List};
    ghost use Rattle.m17_lane.specs.Orders.{items_of};
    ghost use Rattle.m17_lane.specs.Rule.{got_by};

    ghost then = { λ v x w. (w ≡ got_by v x)
        × ((rest : List T) × (items_of v.seen ≡ v.got ++ x ∷ rest)) };
}

impl<T> Lesson<T, Hand<T>> for Leaves {
    ghost use Rattle.m17_lane.specs.Orders.{IsWhole};

    ghost fact = { λ v items. IsWhole v.logs v.got v.seen items };
}

/// One producer more, while no pusher is made yet.
pub struct Declare;

impl<T> Split<Hand<T>> for Declare {
    ghost use Rattle.m17_lane.specs.Rule.{declared_by, idle};

    ghost left = { λ v. declared_by v };

    ghost right = { λ v. idle };
}

/// The next pusher, with one part of the popper's.
pub struct Hire;

impl<T> Split<Hand<T>> for Hire {
    ghost use Rattle.std.specs.Prelude.{[]};
    ghost use Rattle.m17_lane.specs.Rule.{hired_by, pusher};

    ghost left = { λ v. hired_by v };

    ghost right = { λ v. pusher v.producers v.made [] [] [] };
}

/// A pusher's lists and parts come back to the popper's pass.
pub struct Return;

impl<T> Join<Hand<T>> for Return {
    ghost use Rattle.m17_lane.specs.Rule.{joined_to, idle};

    ghost both = { λ v u. joined_to v u };

    ghost spent = { idle };
}

/// What came back from a full lane: the items that the call picks.
pub trait Refusal<T> {
    ghost items: { List T };
}

impl<T> Refusal<T> for Brand {
    ghost use Rattle.std.specs.Prelude.{[]};

    ghost items = { [] };
}

/// A refused push is noted in the pusher's view. The step splits off a pass that is idle and is dropped.
pub struct Refuse<K> {
    of: PhantomData<K>,
}

impl<T, K: Refusal<T>> Split<Hand<T>> for Refuse<K> {
    ghost use Rattle.m17_lane.specs.Rule.{refuse, idle};

    ghost left = { λ v. refuse v K.items };

    ghost right = { λ v. idle };
}
