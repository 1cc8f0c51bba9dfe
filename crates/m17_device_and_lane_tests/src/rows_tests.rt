//! What no clause says: that an item pushed at a place comes out of the lane of that place and of no other, that a full
//! lane gives it back at once, that a job is started by the order it finds, that a count goes on to its last, and that a push
//! on each lane that was laid on a bell sets the mark of that lane.
ghost use Rattle.std.specs.Prelude.{◌≡◌, vec_len};

use crate::bench::must;
use m17_crew::Order;
use m17_lane::{
    MarkedBell, Popper, Pusher, count_one, make_one, pop_at, pop_in, push_at, push_quietly_at,
    push_unrung_at, starts, try_push_at,
};
use std::alloc::Global;
use std::process::Abort;

type Ends = (Vec<Pusher<u32>>, Vec<Popper<u32>>);

// The ends of three lanes that hold one item each.
fn three_lanes<R: Abort>(rt: &R, alloc: Global) -> Ends
    ensures { (vec_len result.0 ≡ 3) × (vec_len result.1 ≡ 3) }
{
    let (a, from_a) = must(rt, make_one(alloc, 1));
    let (b, from_b) = must(rt, make_one(alloc, 1));
    let (c, from_c) = must(rt, make_one(alloc, 1));
    let pushers = must(rt, Vec::from_array(alloc, [a, b, c]));
    let poppers = must(rt, Vec::from_array(alloc, [from_a, from_b, from_c]));
    (pushers, poppers)
}

#[test]
fn an_item_comes_out_at_its_own_place(rt: HostRuntime) {
    let (mut pushers, mut poppers) = three_lanes(&rt, rt.alloc());
    push_at(&rt, &mut pushers, 1, 20);
    push_quietly_at(&rt, &mut pushers, 2, 30, 8);
    let popped = [
        pop_at(&rt, &mut poppers, 0),
        pop_at(&rt, &mut poppers, 1),
        pop_at(&rt, &mut poppers, 1),
        pop_at(&rt, &mut poppers, 2),
    ];
    push_unrung_at(&rt, &mut pushers, 0, 10);
    let unrung = [pop_at(&rt, &mut poppers, 0), pop_at(&rt, &mut poppers, 1)];
    assert!(rt; popped == [None, Some(20), None, Some(30)]);
    assert!(rt; unrung == [Some(10), None]);
}

#[test]
fn a_full_lane_gives_the_item_back_and_its_neighbour_takes_it(rt: HostRuntime) {
    let (mut pushers, mut poppers) = three_lanes(&rt, rt.alloc());
    let pushed = [
        try_push_at(&rt, &mut pushers, 0, 10),
        try_push_at(&rt, &mut pushers, 0, 11),
        try_push_at(&rt, &mut pushers, 1, 11),
    ];
    let popped = pop_at(&rt, &mut poppers, 0);
    let again = try_push_at(&rt, &mut pushers, 0, 12);
    assert!(rt; pushed == [Ok(()), Err(11), Ok(())]);
    assert!(rt; popped == Some(10) && again.is_ok());
}

#[test]
fn a_grid_pops_by_row_and_place(rt: HostRuntime) {
    let (mut pushers, first) = three_lanes(&rt, rt.alloc());
    let (mut others, second) = three_lanes(&rt, rt.alloc());
    push_at(&rt, &mut pushers, 2, 30);
    push_at(&rt, &mut others, 0, 40);
    let mut grid = must(&rt, Vec::from_array(rt.alloc(), [first, second]));
    let popped = [
        pop_in(&rt, &mut grid, 1, 2),
        pop_in(&rt, &mut grid, 0, 0),
        pop_in(&rt, &mut grid, 1, 0),
        pop_in(&rt, &mut grid, 0, 2),
    ];
    assert!(rt; popped == [None, None, Some(40), Some(30)]);
}

#[test]
fn a_job_goes_or_quits_by_its_order_and_leaves_what_comes_after_it(rt: HostRuntime) {
    let (mut orders, mut told) = must(&rt, make_one(rt.alloc(), 4));
    orders.push_waiting(&rt, Order::Stop);
    orders.push_waiting(&rt, Order::Go);
    orders.push_waiting(&rt, Order::Quit);
    orders.push_waiting(&rt, Order::Stop);
    let went = [starts(&rt, &mut told), starts(&rt, &mut told)];
    let left = told.try_pop(&rt);
    assert!(rt; went == [true, false] && left == Some(Order::Stop));
}

#[test]
fn a_count_goes_on(rt: HostRuntime) {
    let first = count_one(&rt, 0);
    let counts = [count_one(&rt, first), count_one(&rt, u64::MAX - 1)];
    assert!(rt; counts == [2, u64::MAX]);
}

// A reply whose push set no mark would lie at the door until another push.
#[test]
fn each_lane_of_the_bell_sets_its_mark(rt: HostRuntime) {
    let alloc = rt.alloc();
    let mut bell = must(&rt, MarkedBell::make(alloc, 2));
    let (mut queue, _queue) = must(&rt, bell.lay_one(alloc, 0, 4));
    let (mut doors, _door) = must(&rt, bell.lay(alloc, 1, 2, 4));
    let bell = bell.into_bell();
    let mut door = doors.pop().expect(&rt, "two ends");
    let pushed = door.try_push(&rt, 7u8);
    let of_door = bell.take_marks(0);
    let also = queue.try_push(&rt, 8u8);
    let of_queue = bell.take_marks(0);
    assert!(rt; pushed.is_ok() && of_door == 0b10);
    assert!(rt; also.is_ok() && of_queue == 0b1);
}
