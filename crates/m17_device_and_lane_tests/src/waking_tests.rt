//! What no clause says of wakings: that none is lost where one end goes to sleep just as the other is at work. Each consumer
//! sleeps at once here, without a while awake before, so that this comes very often. A waking that is lost holds a test up
//! for ever; the gate stops it after 60 seconds.
use crate::bench::must;
use crossbeam_utils::Backoff;
use m17_lane::{Bell, Popper, Pusher, make_one, make_one_marked, make_one_with};
use std::sync::Wait;
use std::sync::atomic::{AtomicU32, Ordering};
use std::thread;
use std::time::{Clock, Duration};

const ROUNDS: u32 = 100_000;

// Waits awake until `wanted` items were taken.
fn wait_for<R: Wait>(rt: &R, taken: &AtomicU32, wanted: u32) {
    let backoff = Backoff::new();
    for _ in rt.forever() {
        if taken.load(Ordering::SeqCst) >= wanted {
            return;
        }
        backoff.spin();
    }
}

// Pushes a number as soon as the one before was taken.
fn push_behind_each<R: Wait>(rt: &R, end: Pusher<u32>, taken: &AtomicU32) {
    let mut end = end;
    for i in 0..ROUNDS {
        wait_for(rt, taken, i);
        end.push_waiting(rt, i);
    }
}

// Takes the marks of the second word, and says how many numbers were in its lane.
fn take_marked<R: Wait>(rt: &R, bell: &Bell, end: &mut Popper<u32>) -> u32 {
    if bell.take_marks(1) == 0 {
        return 0;
    }
    match end.try_pop(rt) {
        Some(_) => 1,
        None => 0,
    }
}

// Takes all numbers from the lane with the mark 70, and rests as soon as none is marked.
fn take_at_rest<R: Wait>(rt: &R, bell: &Bell, end: Popper<u32>, taken: &AtomicU32) {
    let mut end = end;
    for _ in rt.forever() {
        let found = take_marked(rt, bell, &mut end);
        if taken
            .fetch_add(found, Ordering::SeqCst)
            .saturating_add(found)
            >= ROUNDS
        {
            return;
        }
        bell.rest(rt);
    }
}

#[test]
fn no_waking_is_lost_by_marks(rt: HostRuntime) {
    let bell = must(&rt, Bell::make_marked(rt.alloc(), 71));
    let (pusher, popper) = must(&rt, make_one_marked(rt.alloc(), &bell, 70, 4));
    let count = AtomicU32::new(0);
    let (taken, shared, lend) = (&count, &bell, &rt);
    thread::join(
        lend,
        move || push_behind_each(lend, pusher, taken),
        move || take_at_rest(lend, shared, popper, taken),
    );
    assert!(rt; count.load(Ordering::SeqCst) == ROUNDS);
}

// Pushes all numbers. Where the lane is full it is awake for some hundred steps of the processor, which is less than a consumer
// that sleeps takes to come, and then asleep.
fn push_all<R: Wait>(rt: &R, end: Pusher<u32>) {
    let mut end = end;
    for i in 0..ROUNDS {
        end.push_waiting(rt, i);
    }
}

// The next number; where the lane is empty, it sleeps at once.
fn pop_at_rest<R: Wait>(rt: &R, bell: &Bell, end: &mut Popper<u32>) -> u32 {
    for _ in rt.forever() {
        let announced = bell.announce();
        if let Some(number) = end.try_pop(rt) {
            return number;
        }
        announced.sleep(rt);
    }
    unreachable!()
}

// How many numbers did not come in their turn.
fn pop_all_at_rest<R: Wait>(rt: &R, bell: &Bell, end: Popper<u32>) -> u32 {
    let mut end = end;
    let mut wrong = 0u32;
    for i in 0..ROUNDS {
        if pop_at_rest(rt, bell, &mut end) != i {
            wrong = wrong.saturating_add(1);
        }
    }
    wrong
}

#[test]
fn no_waking_is_lost_in_a_lane_for_one_item(rt: HostRuntime) {
    let bell = must(&rt, Bell::make(rt.alloc()));
    let (pusher, popper) = must(&rt, make_one_with(rt.alloc(), &bell, 1));
    let (shared, lend) = (&bell, &rt);
    let (_, wrong) = thread::join(
        lend,
        move || push_all(lend, pusher),
        move || pop_all_at_rest(lend, shared, popper),
    );
    assert!(rt; wrong == 0);
}

// Pushes three numbers to a lane for two, and says then that the third is in.
fn push_three<R: Wait>(rt: &R, end: Pusher<u8>, said: Pusher<u8>) {
    let (mut end, mut said) = (end, said);
    for number in 1..4u8 {
        end.push_waiting(rt, number);
    }
    said.push_waiting(rt, 3);
}

// Pops one number, once who pushes sleeps for want of room, and waits until that has pushed the third: what it popped, and
// what it was told.
fn pop_one_late<R: Wait + Clock>(rt: &R, end: Popper<u8>, told: Popper<u8>) -> (Option<u8>, u8) {
    let (mut end, mut told) = (end, told);
    thread::sleep(rt, Duration::from_millis(20));
    let popped = end.try_pop(rt);
    (popped, told.pop_waiting(rt))
}

// Who wants room in a lane for two items is told of it by the pop that leaves one there, and not by a later one: none comes
// before the third number is in.
#[test]
fn the_pop_that_makes_room_tells_of_it(rt: HostRuntime) {
    let (pusher, popper) = must(&rt, make_one(rt.alloc(), 2));
    let (said, told) = must(&rt, make_one(rt.alloc(), 1));
    let lend = &rt;
    let (_, seen) = thread::join(
        lend,
        move || push_three(lend, pusher, said),
        move || pop_one_late(lend, popper, told),
    );
    assert!(rt; seen == (Some(1), 3));
}
