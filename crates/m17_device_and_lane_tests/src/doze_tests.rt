//! What no clause says of who is woken: which pushes end a doze, that nothing is left behind by it, and which pushes wake
//! nobody.
ghost use Rattle.std.specs.Prelude.{◌<◌};

use crate::bench::must;
use m17_lane::{Announced, Bell, Popper, Pusher, make, make_one_marked, make_one_with};
use std::alloc::Global;
use std::process::Abort;
use std::sync::Wait;
use std::thread;
use std::thread::Threads;
use std::time::{Clock, Duration};

// The consumer of a lane with this room dozes, and `count` items are pushed quietly, which may lie until `enough` are there:
// whether it dozed behind each but the last, and behind the last.
fn dozes_behind<R: Abort + Wait>(
    rt: &R,
    alloc: Global,
    capacity: u32,
    enough: usize,
    count: u32,
) -> (bool, bool)
    requires { 0 < capacity }
{
    let bell = must(rt, Bell::make(alloc));
    let (mut pusher, _popper) = must(rt, make_one_with(alloc, &bell, capacity));
    let announced = bell.announce_doze();
    let mut each = true;
    for item in 1..count {
        pusher.push_quietly(rt, item, enough);
        each = each && bell.is_dozed_on();
    }
    pusher.push_quietly(rt, count, enough);
    let last = bell.is_dozed_on();
    announced.sleep(rt);
    (each, last)
}

#[test]
fn a_doze_ends_once_enough_quiet_items_are_there(rt: HostRuntime) {
    let few = [(64, 8, 8), (16, 8, 8), (9, 8, 5), (2, 8, 1), (1, 8, 1)];
    for (capacity, enough, count) in few {
        let dozes = dozes_behind(&rt, rt.alloc(), capacity, enough, count);
        assert!(rt; dozes == (true, false), "a lane of {capacity}");
    }
    let other = [
        (64, 3, 3),
        (64, 0, 1),
        (256, usize::MAX, 128),
        (9, usize::MAX, 5),
    ];
    for (capacity, enough, count) in other {
        let dozes = dozes_behind(&rt, rt.alloc(), capacity, enough, count);
        assert!(rt; dozes == (true, false), "a lane of {capacity}, {count}");
    }
}

#[test]
fn any_other_push_ends_a_doze(rt: HostRuntime) {
    let bell = must(&rt, Bell::make(rt.alloc()));
    let (mut pusher, _popper) = must(&rt, make_one_with(rt.alloc(), &bell, 64));
    let announced = bell.announce_doze();
    pusher.push_quietly(&rt, 1u8, 8);
    let quietly = bell.is_dozed_on();
    pusher.push_waiting(&rt, 2);
    let waiting = bell.is_dozed_on();
    announced.sleep(&rt);
    let announced = bell.announce_doze();
    let pushed = pusher.try_push(&rt, 3);
    let trying = bell.is_dozed_on();
    announced.sleep(&rt);
    assert!(rt; (quietly, waiting, pushed, trying) == (true, false, Ok(()), false));
}

// A sleep behind a doze is none: a quiet push that left it asleep would hold the test up for ever.
#[test]
fn a_quiet_push_ends_a_sleep(rt: HostRuntime) {
    let bell = must(&rt, Bell::make(rt.alloc()));
    let (mut pusher, _popper) = must(&rt, make_one_with(rt.alloc(), &bell, 64));
    drop(bell.announce_doze());
    let announced = bell.announce();
    pusher.push_quietly(&rt, 1u8, 8);
    announced.sleep(&rt);
}

// It would sleep for ever, were it not roused.
#[test]
fn who_sleeps_is_roused(rt: HostRuntime) {
    let bell = must(&rt, Bell::make(rt.alloc()));
    let (pusher, mut popper) = must(&rt, make_one_with::<u8>(rt.alloc(), &bell, 64));
    let announced = bell.announce();
    pusher.rouse();
    announced.sleep(&rt);
    assert!(rt; popper.try_pop(&rt).is_none());
}

// The consumer of two lanes sleeps on behind an unrung push to each, until it is roused by one of them. Both set their marks.
#[test]
fn unrung_pushes_wake_nobody_before_a_rouse(rt: HostRuntime) {
    let bell = must(&rt, Bell::make_marked(rt.alloc(), 2));
    let (mut first, _popper) = must(&rt, make_one_marked(rt.alloc(), &bell, 0, 4));
    let (mut second, _popper) = must(&rt, make_one_marked(rt.alloc(), &bell, 1, 4));
    let announced = bell.announce_doze();
    first.push_unrung(&rt, 1u8);
    let pushed = second.try_push_unrung(&rt, 2u8);
    let unrung = bell.is_dozed_on();
    first.rouse();
    let roused = !bell.is_dozed_on();
    announced.sleep(&rt);
    let taken = bell.take_marks(0);
    assert!(rt; pushed.is_ok() && unrung && roused && taken == 0b11);
}

// Pushes two numbers unrung to a lane that holds one, and rouses the consumer behind them.
fn push_two_unrung<R: Wait>(rt: &R, end: Pusher<u32>) {
    let mut end = end;
    end.push_unrung(rt, 1);
    end.push_unrung(rt, 2);
    end.rouse();
}

// Takes two numbers, once its sleep has ended.
fn take_two_behind<R: Wait>(rt: &R, announced: Announced<'_>, end: Popper<u32>) -> [u32; 2] {
    let mut end = end;
    announced.sleep(rt);
    [end.pop_waiting(rt), end.pop_waiting(rt)]
}

// Who waits for room wakes the consumer before it sleeps: else both would sleep for ever.
#[test]
fn who_waits_for_room_rings_first(rt: HostRuntime) {
    let bell = must(&rt, Bell::make(rt.alloc()));
    let (pusher, popper) = must(&rt, make_one_with(rt.alloc(), &bell, 1));
    let announced = bell.announce();
    let lend = &rt;
    let (_, taken) = thread::join(
        lend,
        move || push_two_unrung(lend, pusher),
        move || take_two_behind(lend, announced, popper),
    );
    assert!(rt; taken == [1, 2]);
}

// A quiet push sets its mark, so that who looks for marks finds the item.
#[test]
fn a_quiet_push_sets_its_mark(rt: HostRuntime) {
    let bell = must(&rt, Bell::make_marked(rt.alloc(), 4));
    let (mut pusher, _popper) = must(&rt, make_one_marked(rt.alloc(), &bell, 2, 64));
    let announced = bell.announce_doze();
    pusher.push_quietly(&rt, 1u8, 8);
    let dozes = bell.is_dozed_on();
    let taken = bell.take_marks(0);
    drop(announced);
    assert!(rt; dozes && taken == 0b100);
}

// The number that says that a producer pushes no more.
const LAST: u32 = u32::MAX;

// Pushes so many numbers quietly, at rest now and then, and then the last one.
fn push_numbers_quietly<R: Wait + Clock>(rt: &R, end: Pusher<u32>, count: u32) {
    let mut end = end;
    for i in 0..count {
        end.push_quietly(rt, i, 8);
        if i % 16 == 3 {
            thread::sleep(rt, Duration::from_millis(1));
        }
    }
    end.push_waiting(rt, LAST);
}

// Takes what two producers push, and says how many numbers came before their last ones.
fn take_from_two<R: Wait>(rt: &R, end: Popper<u32>) -> u32 {
    let mut end = end;
    let mut taken = 0u32;
    let mut ended = 0u32;
    for _ in rt.forever() {
        if end.pop_dozing(rt) == LAST {
            ended = ended.saturating_add(1);
        } else {
            taken = taken.saturating_add(1);
        }
        if ended >= 2 {
            return taken;
        }
    }
    unreachable!()
}

fn push_by_two<R: Threads + Wait + Clock + Sync>(
    rt: &R,
    first: Pusher<u32>,
    second: Pusher<u32>,
    count: u32,
) {
    thread::join(
        rt,
        move || push_numbers_quietly(rt, first, count),
        move || push_numbers_quietly(rt, second, count),
    );
}

// Two producers push so many numbers each by a lane with this room, whose consumer dozes: how many it took.
fn take_of_two<R: Abort + Threads + Wait + Clock + Sync>(
    rt: &R,
    alloc: Global,
    capacity: u32,
    count: u32,
) -> u32
    requires { 0 < capacity }
{
    let (mut pushers, popper) = must(rt, make(alloc, 2, capacity));
    let second = pushers.pop().expect(rt, "two pushers");
    let first = pushers.pop().expect(rt, "two pushers");
    let (_, taken) = thread::join(
        rt,
        move || push_by_two(rt, first, second, count),
        move || take_from_two(rt, popper),
    );
    taken
}

// Where a push that fills the lane never rang, all would be asleep for ever; the gate stops a test after 60 seconds.
#[test]
fn nothing_is_left_behind_by_a_doze(rt: HostRuntime) {
    for capacity in [1, 2, 3, 64] {
        assert!(rt;
            take_of_two(&rt, rt.alloc(), capacity, 500) == 1000,
            "{capacity}"
        );
    }
}
