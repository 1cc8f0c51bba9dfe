//! What no clause says: that calls go through with ample memory, that an end can go to another thread, that the lane had
//! no room or no item when a call says so, that sleepers are woken, and that an item is dropped once.
ghost use Rattle.std.specs.Prelude.{◌≡◌, ◌<◌, ◌+◌, ◌^◌};
ghost use Rattle.m17_lane.specs.Ends.{pushed_to, popped_from};

use crate::bench::must;
use m17_lane::{Bell, Popper, Pusher, Trail, finish, finish_one, make, make_one, make_one_with};
use std::alloc::Global;
use std::process::Abort;
use std::sync::Wait;
use std::sync::atomic::{AtomicU64, Ordering};
use std::thread;
use std::thread::Threads;
use std::time::{Clock, Duration};

// One thread pushes an item by an end that it owns, another pops one; both ends come back.
fn pass_on<T: Drop + Send, R: Threads + Wait + Sync>(
    rt: &R,
    pusher: Pusher<T>,
    popper: Popper<T>,
    item: T,
) -> (Pusher<T>, (Popper<T>, T))
    ensures pushed { result.0 ≡ pushed_to pusher item }
    ensures popped { result.1.0 ≡ popped_from popper result.1.1 }
{
    thread::join(
        rt,
        move || -> Pusher<T>
            ensures { result ≡ pushed_to pusher item }
        { push_one(rt, pusher, item) },
        move || -> (Popper<T>, T)
            ensures { result.0 ≡ popped_from popper result.1 }
        { pop_one(rt, popper) },
    )
}

fn push_one<T, R: Wait>(rt: &R, end: Pusher<T>, item: T) -> Pusher<T>
    ensures { result ≡ pushed_to end item }
{
    let mut end = end;
    end.push_waiting(rt, item);
    end
}

fn pop_one<T, R: Wait>(rt: &R, end: Popper<T>) -> (Popper<T>, T)
    ensures { result.0 ≡ popped_from end result.1 }
{
    let mut end = end;
    let item = end.pop_waiting(rt);
    (end, item)
}

// Pushes `count` numbers from `from` on.
fn push_numbers<R: Wait>(rt: &R, end: Pusher<u32>, from: u32, count: u32) -> Pusher<u32>
    requires { from + count < 2 ^ 32 }
    ensures { result.lane ≡ end.lane }
{
    let mut end = end;
    for i in 0..count {
        end.push_waiting(rt, from + i);
    }
    end
}

// Tries the numbers from `from` to below `end`, and says how many were taken.
fn try_numbers<R: Wait>(rt: &R, pusher: Pusher<u32>, from: u32, end: u32) -> (Pusher<u32>, u32)
    ensures { result.0.lane ≡ pusher.lane }
{
    let mut pusher = pusher;
    let mut taken = 0u32;
    for i in from..end {
        if pusher.try_push(rt, i).is_ok() {
            taken = taken.saturating_add(1);
        }
    }
    (pusher, taken)
}

// Pops `count` numbers, at rest between two of them for that many microseconds. The answer is how many of them were not
// the next of their thousand.
fn pop_numbers<R: Wait + Clock>(
    rt: &R,
    end: Popper<u32>,
    count: u32,
    rest: u64,
) -> (Popper<u32>, u32)
    ensures lane { result.0.lane ≡ end.lane }
    ensures producers { result.0.producers ≡ end.producers }
{
    let mut end = end;
    let mut next = [0u32; 3];
    let mut wrong = 0u32;
    for _popped in 0..count {
        let number = end.pop_waiting(rt);
        let row = (number / 1000 % 3) as usize;
        if number % 1000 != next[row] {
            wrong = wrong.saturating_add(1);
        }
        next[row] = number % 1000 + 1;
        if rest > 0 {
            thread::sleep(rt, Duration::from_micros(rest));
        }
    }
    (end, wrong)
}

type Three = (Pusher<u32>, Pusher<u32>, Pusher<u32>);

// Three threads push their thousand, from 0, 1000 and 2000 on, and this one pops all.
fn three_thousand<R: Threads + Wait + Clock + Sync>(
    rt: &R,
    ends: Three,
    popper: Popper<u32>,
    each: u32,
    rest: u64,
) -> (Three, (Popper<u32>, u32))
    requires { each < 1001 }
    ensures first { result.0.0.lane ≡ ends.0.lane }
    ensures second { result.0.1.lane ≡ ends.1.lane }
    ensures third { result.0.2.lane ≡ ends.2.lane }
    ensures lane { result.1.0.lane ≡ popper.lane }
    ensures producers { result.1.0.producers ≡ popper.producers }
{
    let (a, b, c) = ends;
    let ((a, (b, c)), popped) = thread::join(
        rt,
        move || -> (Pusher<u32>, (Pusher<u32>, Pusher<u32>))
            requires { each < 1001 }
            ensures { (result.0.lane ≡ a.lane)
                × (result.1.0.lane ≡ b.lane) × (result.1.1.lane ≡ c.lane) }
        {
            thread::join(
                rt,
                move || -> Pusher<u32>
                    requires { each < 1001 }
                    ensures { result.lane ≡ a.lane }
                { push_numbers(rt, a, 0, each) },
                move || -> (Pusher<u32>, Pusher<u32>)
                    requires { each < 1001 }
                    ensures { (result.0.lane ≡ b.lane) × (result.1.lane ≡ c.lane) }
                {
                    thread::join(
                        rt,
                        move || -> Pusher<u32>
                            requires { each < 1001 }
                            ensures { result.lane ≡ b.lane }
                        { push_numbers(rt, b, 1000, each) },
                        move || -> Pusher<u32>
                            requires { each < 1001 }
                            ensures { result.lane ≡ c.lane }
                        { push_numbers(rt, c, 2000, each) },
                    )
                },
            )
        },
        move || -> (Popper<u32>, u32)
            requires { each < 1001 }
            ensures { (result.0.lane ≡ popper.lane) × (result.0.producers ≡ popper.producers) }
        { pop_numbers(rt, popper, 3 * each, rest) },
    );
    ((a, b, c), popped)
}

// A lane of three producers: its pushers in their order, and its popper.
fn ends_of_three<R: Abort>(rt: &R, alloc: Global, capacity: u32) -> (Three, Popper<u32>)
    requires { 0 < capacity }
    ensures first { result.0.0.lane ≡ result.1.lane }
    ensures second { result.0.1.lane ≡ result.1.lane }
    ensures third { result.0.2.lane ≡ result.1.lane }
    ensures producers { result.1.producers ≡ 3 }
{
    let (mut pushers, popper) = must(rt, make(alloc, 3, capacity));
    let third = pushers.pop().expect(rt, "three pushers");
    let second = pushers.pop().expect(rt, "three pushers");
    let first = pushers.pop().expect(rt, "three pushers");
    ((first, second, third), popper)
}

// The first five items that such a lane has left when it is finished, its ends handed in in this order.
fn left_by_three<R: Abort + Wait>(
    rt: &R,
    alloc: Global,
    ends: Three,
    popper: Popper<u32>,
) -> [Option<u32>; 5]
    requires first { ends.0.lane ≡ popper.lane }
    requires second { ends.1.lane ≡ popper.lane }
    requires third { ends.2.lane ≡ popper.lane }
    requires producers { popper.producers ≡ 3 }
{
    let (a, b, c) = ends;
    let mut trail = finish(must(rt, Vec::from_array(alloc, [a, b, c])), popper);
    five_left(rt, &mut trail)
}

// The next five items that are left.
fn five_left<R: Wait>(rt: &R, trail: &mut Trail<u32>) -> [Option<u32>; 5] {
    let mut left = [None; 5];
    for i in 0..5 {
        left[i] = trail.left(rt);
    }
    left
}

#[test]
fn a_full_lane_gives_the_item_back(rt: HostRuntime) {
    let (mut pushers, mut popper) = must(&rt, make(rt.alloc(), 2, 1));
    let mut second = pushers.pop().expect(&rt, "two pushers");
    let mut first = pushers.pop().expect(&rt, "two pushers");
    let pushed = [first.try_push(&rt, 7), second.try_push(&rt, 8)];
    let popped = [popper.try_pop(&rt), popper.try_pop(&rt)];
    let again = (second.try_push(&rt, 9), popper.try_pop(&rt));
    assert!(rt; pushed == [Ok(()), Err(8)]);
    assert!(rt; popped == [Some(7), None] && again == (Ok(()), Some(9)));
}

#[test]
fn what_is_left_comes_out_of_the_trail(rt: HostRuntime) {
    let (pusher, popper) = must(&rt, make_one(rt.alloc(), 3));
    let (pusher, taken) = try_numbers(&rt, pusher, 1, 5);
    let (popper, item) = pop_one(&rt, popper);
    let mut trail = finish_one(pusher, popper);
    let left = five_left(&rt, &mut trail);
    assert!(rt; (taken, item) == (3, 1));
    assert!(rt; left == [Some(2), Some(3), None, None, None]);
}

// The lane has room for four.
#[test]
fn what_several_producers_left_comes_out_in_order(rt: HostRuntime) {
    let ((first, second, third), popper) = ends_of_three(&rt, rt.alloc(), 4);
    let (second, two) = try_numbers(&rt, second, 20, 22);
    let (first, one) = try_numbers(&rt, first, 10, 11);
    let (third, three) = try_numbers(&rt, third, 30, 33);
    let (popper, item) = pop_one(&rt, popper);
    let left = left_by_three(&rt, rt.alloc(), (third, first, second), popper);
    assert!(rt; [one, two, three, item] == [1, 2, 1, 20]);
    assert!(rt; left == [Some(21), Some(10), Some(30), None, None]);
}

#[test]
fn an_end_goes_to_another_thread_and_comes_back(rt: HostRuntime) {
    let (pusher, popper) = must(&rt, make_one(rt.alloc(), 1));
    let (pusher, (popper, item)) = pass_on(&rt, pusher, popper, 5u8);
    let mut trail = finish_one(pusher, popper);
    let left = trail.left(&rt);
    assert!(rt; (item, left) == (5, None));
}

// Three threads push so many numbers each by a lane with this room: how many came out of their order, and what is left
// when all were popped.
fn pass_thousands<R: Abort + Threads + Wait + Clock + Sync>(
    rt: &R,
    alloc: Global,
    capacity: u32,
    each: u32,
    rest: u64,
) -> (u32, Option<u32>)
    requires { (0 < capacity) × (each < 1001) }
{
    let (ends, popper) = ends_of_three(rt, alloc, capacity);
    let (ends, (popper, wrong)) = three_thousand(rt, ends, popper, each, rest);
    let [left, ..] = left_by_three(rt, alloc, ends, popper);
    (wrong, left)
}

#[test]
fn each_producers_numbers_come_in_its_order(rt: HostRuntime) {
    assert!(rt; pass_thousands(&rt, rt.alloc(), 4, 1000, 0) == (0, None));
    assert!(rt; pass_thousands(&rt, rt.alloc(), 1, 50, 300) == (0, None));
}

// The only producer of a lane for one item sleeps while that is there, and goes on when it was popped: then no more than
// half of the lane is taken, which is nothing. One that is not woken holds the test up for ever.
#[test]
fn a_sleeper_at_a_lane_for_one_item_goes_on(rt: HostRuntime) {
    let (pusher, popper) = must(&rt, make_one(rt.alloc(), 1));
    let lend = &rt;
    let (_, (_, wrong)) = thread::join(
        lend,
        move || push_numbers(lend, pusher, 0, 4),
        move || pop_numbers(lend, popper, 4, 20_000),
    );
    assert!(rt; wrong == 0);
}

// Pushes a number by each end in turn, with a rest before each, so that the consumer is asleep when it comes.
fn ring_in_turn<R: Wait + Clock>(rt: &R, ends: Three, rounds: u32) {
    let (mut a, mut b, mut c) = ends;
    for i in 0..rounds {
        thread::sleep(rt, Duration::from_millis(2));
        a.push_waiting(rt, i);
        thread::sleep(rt, Duration::from_millis(2));
        b.push_waiting(rt, i);
        thread::sleep(rt, Duration::from_millis(2));
        c.push_waiting(rt, i);
    }
}

type Poppers = (Popper<u32>, Popper<u32>, Popper<u32>);

// Takes `count` numbers from three lanes of one bell, asleep while all three are empty. The answer is how many it took.
fn take_from_three<R: Wait>(rt: &R, bell: &Bell, ends: Poppers, count: u32) -> u32 {
    let (mut a, mut b, mut c) = ends;
    let mut taken = 0u32;
    for _ in rt.forever() {
        if taken >= count {
            break;
        }
        let announced = bell.announce();
        let found = found_of([a.try_pop(rt), b.try_pop(rt), c.try_pop(rt)]);
        if found == 0 {
            announced.sleep(rt);
        }
        taken = taken.saturating_add(found);
    }
    taken
}

// How many items there are.
fn found_of(tried: [Option<u32>; 3]) -> u32 {
    let mut found = 0u32;
    for item in tried {
        if item.is_some() {
            found = found.saturating_add(1);
        }
    }
    found
}

#[test]
fn one_bell_wakes_the_consumer_of_three_lanes(rt: HostRuntime) {
    let bell = must(&rt, Bell::make(rt.alloc()));
    let (a, from_a) = must(&rt, make_one_with(rt.alloc(), &bell, 1));
    let (b, from_b) = must(&rt, make_one_with(rt.alloc(), &bell, 1));
    let (c, from_c) = must(&rt, make_one_with(rt.alloc(), &bell, 1));
    let ends = (a, b, c);
    let poppers = (from_a, from_b, from_c);
    let shared = &bell;
    let lend = &rt;
    let (_, taken) = thread::join(
        lend,
        move || ring_in_turn(lend, ends, 100),
        move || take_from_three(lend, shared, poppers, 300),
    );
    assert!(rt; taken == 300);
}

// Pushes bursts of a thousand numbers, and rests after each until the other thread says that it has them.
fn send_bursts<R: Wait>(rt: &R, end: Pusher<u32>, answers: Popper<u32>, bursts: u32) -> u32 {
    let mut end = end;
    let mut answers = answers;
    let mut wrong = 0u32;
    for burst in 0..bursts {
        for i in 0..1000 {
            end.push_waiting(rt, i);
        }
        if answers.pop_waiting(rt) != burst {
            wrong = wrong.saturating_add(1);
        }
    }
    wrong
}

fn take_bursts<R: Wait + Clock>(
    rt: &R,
    end: Popper<u32>,
    answers: Pusher<u32>,
    bursts: u32,
) -> u32 {
    let mut end = end;
    let mut answers = answers;
    let mut wrong = 0u32;
    for burst in 0..bursts {
        for i in 0..1000 {
            if end.pop_waiting(rt) != i {
                wrong = wrong.saturating_add(1);
            }
        }
        // Now both are at rest: the one sleeps here, and the other on its empty lane.
        thread::sleep(rt, Duration::from_millis(2));
        answers.push_waiting(rt, burst);
    }
    wrong
}

// A missed wake-up leaves both threads asleep for ever. The bound of time is the gate's, which stops a test after 60
// seconds: with every wake-up this one takes a few, 0.4 of them at rest, so only a missed one passes the bound.
#[test]
fn two_hundred_thousand_items_in_bursts_arrive(rt: HostRuntime) {
    let (pusher, popper) = must(&rt, make_one(rt.alloc(), 16));
    let (answers, answered) = must(&rt, make_one(rt.alloc(), 1));
    let lend = &rt;
    let wrong = thread::join(
        lend,
        move || send_bursts(lend, pusher, answered, 200),
        move || take_bursts(lend, popper, answers, 200),
    );
    assert!(rt; wrong == (0, 0));
}

// An item that counts itself when it is dropped.
struct Counted<'a>(&'a AtomicU64);

impl Drop for Counted<'_> {
    fn drop(self) {
        let Counted(dropped) = self;
        dropped.fetch_add(1, Ordering::SeqCst);
    }
}

// How many items were dropped.
fn count(dropped: &AtomicU64) -> u64 {
    dropped.load(Ordering::SeqCst)
}

// Tries to push an item: whether it was taken, and how many items were dropped while it was not let go that came back.
fn push_counted<'a, R: Wait>(
    rt: &R,
    pusher: &mut Pusher<Counted<'a>>,
    dropped: &'a AtomicU64,
) -> (bool, u64) {
    let answer = pusher.try_push(rt, Counted(dropped));
    (answer.is_ok(), count(dropped))
}

#[test]
fn an_item_is_dropped_once(rt: HostRuntime) {
    let dropped = AtomicU64::new(0);
    let (mut pusher, mut popper) = must(&rt, make_one(rt.alloc(), 1));
    let first = push_counted(&rt, &mut pusher, &dropped);
    let refused = push_counted(&rt, &mut pusher, &dropped);
    let back = count(&dropped);
    drop(popper.try_pop(&rt));
    let popped = count(&dropped);
    let second = push_counted(&rt, &mut pusher, &dropped);
    drop(pusher);
    let in_the_lane = count(&dropped);
    drop(popper);
    let last = count(&dropped);
    assert!(rt; [first, refused, second] == [(true, 0), (false, 0), (true, 2)]);
    assert!(rt; [back, popped, in_the_lane, last] == [1, 2, 2, 3]);
}
