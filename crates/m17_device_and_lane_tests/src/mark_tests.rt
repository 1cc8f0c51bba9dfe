//! What no clause says of marks: that a push sets its own and no other, that a mark is taken once, and that a push with a
//! mark ends a rest.
use crate::bench::must;
use m17_lane::{Bell, Popper, Pusher, make_marked, make_one_marked, make_one_with};
use std::sync::Wait;
use std::thread;
use std::time::{Clock, Duration};

// What a bell shows of its marks, one word after the other.
fn shown_by(bell: &Bell) -> [u64; 7] {
    [
        bell.take_marks(0),
        bell.take_marks(0),
        bell.take_marks(2),
        bell.take_marks(2),
        bell.take_marks(1),
        bell.take_marks(3),
        bell.take_marks(99),
    ]
}

// A lane without a mark sets none, and a refused push sets none.
#[test]
fn marks_tell_which_lanes_were_pushed_to(rt: HostRuntime) {
    let bell = must(&rt, Bell::make_marked(rt.alloc(), 200));
    let (mut low, _from_low) = must(&rt, make_one_marked(rt.alloc(), &bell, 3, 2));
    let (mut high, _from_high) = must(&rt, make_one_marked(rt.alloc(), &bell, 130, 2));
    let (mut plain, _from_plain) = must(&rt, make_one_with(rt.alloc(), &bell, 2));
    let words = bell.words();
    let new = bell.take_marks(0);
    let unmarked = (plain.try_push(&rt, 1u8), bell.take_marks(0));
    let pushed = [
        low.try_push(&rt, 2u8),
        high.try_push(&rt, 3u8),
        high.try_push(&rt, 4u8),
    ];
    bell.rest(&rt);
    let shown = shown_by(&bell);
    let refused = (high.try_push(&rt, 5u8), bell.take_marks(2));
    assert!(rt; words == 4 && new == 0 && unmarked == (Ok(()), 0));
    assert!(rt; pushed == [Ok(()); 3] && refused == (Err(5), 0));
    assert!(rt; shown == [0b1000, 0, 0b100, 0, 0, 0, 0]);
}

#[test]
fn each_producer_of_a_lane_sets_its_mark(rt: HostRuntime) {
    let bell = must(&rt, Bell::make_marked(rt.alloc(), 8));
    let (mut pushers, _popper) = must(&rt, make_marked(rt.alloc(), &bell, 6, 2, 4));
    assert!(rt; pushers.len() == 2);
    for pusher in pushers.iter_mut() {
        let pushed = pusher.try_push(&rt, 1u8);
        let taken = bell.take_marks(0);
        assert!(rt; pushed.is_ok() && taken == 0b100_0000);
    }
}

// Pushes a number by each end in turn, with a rest before each, so that the consumer is asleep when it comes.
fn push_in_turn<R: Wait + Clock>(rt: &R, ends: (Pusher<u32>, Pusher<u32>), rounds: u32) {
    let (mut a, mut b) = ends;
    for i in 0..rounds {
        thread::sleep(rt, Duration::from_millis(1));
        a.push_waiting(rt, i);
        thread::sleep(rt, Duration::from_millis(1));
        b.push_waiting(rt, i);
        b.push_waiting(rt, i);
    }
}

// Pops until the lane is empty, and says how many it got.
fn pop_all<R: Wait>(rt: &R, end: &mut Popper<u32>) -> u32 {
    let mut taken = 0u32;
    for _ in rt.forever() {
        if end.try_pop(rt).is_none() {
            return taken;
        }
        taken = taken.saturating_add(1);
    }
    unreachable!()
}

// Takes `count` numbers from two lanes with the marks 5 and 70, asleep while no mark is set.
fn take_marked<R: Wait>(rt: &R, bell: &Bell, ends: (Popper<u32>, Popper<u32>), count: u32) -> u32 {
    let (mut a, mut b) = ends;
    let mut taken = 0u32;
    for _ in rt.forever() {
        if taken >= count {
            return taken;
        }
        if bell.take_marks(0) == 1 << 5 {
            taken = taken.saturating_add(pop_all(rt, &mut a));
        }
        if bell.take_marks(1) == 1 << 6 {
            taken = taken.saturating_add(pop_all(rt, &mut b));
        }
        if taken < count {
            bell.rest(rt);
        }
    }
    unreachable!()
}

#[test]
fn a_push_with_a_mark_ends_a_rest(rt: HostRuntime) {
    let bell = must(&rt, Bell::make_marked(rt.alloc(), 71));
    let (a, from_a) = must(&rt, make_one_marked(rt.alloc(), &bell, 5, 1));
    let (b, from_b) = must(&rt, make_one_marked(rt.alloc(), &bell, 70, 1));
    let ends = (a, b);
    let poppers = (from_a, from_b);
    let shared = &bell;
    let lend = &rt;
    let (_, taken) = thread::join(
        lend,
        move || push_in_turn(lend, ends, 200),
        move || take_marked(lend, shared, poppers, 600),
    );
    assert!(rt; taken == 600);
}
