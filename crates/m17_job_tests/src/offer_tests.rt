//! What no clause says of offers: that they are taken where there is room, and that an offer that waits goes on once the
//! consumer has popped half of the queue.
ghost use Rattle.std.specs.Prelude.{◌≡◌, ◌<◌, ◌≤◌, ◌+◌, ◌^◌, [], ◌∷◌};
ghost use Rattle.m17_worker.specs.Offers.{AreQueues};

use crate::bench::must;
use m17_control::{Control, Item, Said, Why};
use m17_lane::{Popper, make_one};
use m17_samples::frame;
use m17_values::{Member, Peer};
use m17_worker::{LaneOffers, Offered};
use std::alloc::Global;
use std::process::Abort;
use std::sync::Wait;
use std::thread;
use std::thread::Threads;
use std::time::{Clock, Duration};

fn item(body: Said) -> Item
    ensures { result.member.place ≡ 0 }
{
    Item {
        member: Member {
            place: 0,
            generation: 0,
        },
        link: 0,
        peer: Peer {
            six: false,
            ip: [0; 16],
            port: 17_000,
        },
        body,
    }
}

fn a_frame() -> Item
    ensures { result.member.place ≡ 0 }
{
    item(Said::Frame {
        position: 0,
        packet: frame(1, 0, false),
    })
}

// Offers with one queue of 64, and that queue's other end.
fn one_queue<R: Abort>(rt: &R, alloc: Global, patient: bool) -> (LaneOffers, Popper<Item>)
    ensures { AreQueues 1 result.0.queues.items }
{
    let (pusher, popper) = must(rt, make_one(alloc, 64));
    let mut queues = must(rt, Vec::with_capacity(alloc, 1));
    queues.push_reserved(pusher);
    let offers = LaneOffers {
        queues,
        patient,
        missed: 0,
    };
    (offers, popper)
}

// Offers the item, and says what became of it.
fn offer_one<R: Wait>(rt: &R, offers: &mut LaneOffers, item: Item) -> Offered
    requires queues { AreQueues 1 offers.old.queues.items }
    requires place { item.member.place ≡ 0 }
    ensures { AreQueues 1 offers.new.queues.items }
{
    m17_lane::rows_laws::rows_grow::<Item>();
    offers.offer(rt, item)
}

// Offers so many frames, and says how many of them were queued.
fn offer_frames<R: Wait>(rt: &R, offers: &mut LaneOffers, count: u32) -> u32
    requires { AreQueues 1 offers.old.queues.items }
    ensures { AreQueues 1 offers.new.queues.items }
{
    let mut queued = 0u32;
    for _ in 0..count {
        if offer_one(rt, offers, a_frame()) == Offered::Queued {
            queued = queued.saturating_add(1);
        }
    }
    queued
}

// Offers a frame where there is no room, pops one, and offers a frame again: what became of both and how many were
// missed then, and whether it was a frame that was popped.
fn offer_around_a_pop<R: Wait>(
    rt: &R,
    offers: &mut LaneOffers,
    popper: &mut Popper<Item>,
) -> ([Offered; 2], [u64; 2], bool)
    requires { AreQueues 1 offers.old.queues.items }
{
    let first = offer_one(rt, offers, a_frame());
    let missed = offers.missed;
    let popped = popper.try_pop(rt) == Some(a_frame());
    let second = offer_one(rt, offers, a_frame());
    ([first, second], [missed, offers.missed], popped)
}

#[test]
fn a_full_queue_misses_a_frame_until_one_is_popped(rt: HostRuntime) {
    let (mut offers, mut popper) = one_queue(&rt, rt.alloc(), false);
    let queued = offer_frames(&rt, &mut offers, 64);
    let missed = offers.missed;
    let (offered, counts, popped) = offer_around_a_pop(&rt, &mut offers, &mut popper);
    assert!(rt; queued == 64 && missed == 0);
    assert!(rt; offered == [Offered::Missed, Offered::Queued] && counts == [1, 1] && popped);
}

// Rests, and then pops so many items.
fn pop_late<R: Wait + Clock>(rt: &R, popper: Popper<Item>, count: u32) -> Popper<Item> {
    let mut popper = popper;
    thread::sleep(rt, Duration::from_millis(20));
    for _ in 0..count {
        let _ = popper.pop_waiting(rt);
    }
    popper
}

// Offers the item while another thread, which rests first, pops half of the queue: the only producer of a full lane is
// woken no sooner.
fn offer_to_a_late_consumer<R: Threads + Wait + Clock + Sync>(
    rt: &R,
    offers: LaneOffers,
    popper: Popper<Item>,
    item: Item,
) -> (LaneOffers, Offered)
    requires queues { AreQueues 1 offers.queues.items }
    requires place { item.member.place ≡ 0 }
    ensures { AreQueues 1 result.0.queues.items }
{
    let (offered, _) = thread::join(
        rt,
        move || -> (LaneOffers, Offered)
            requires { AreQueues 1 offers.queues.items × (item.member.place ≡ 0) }
            ensures { AreQueues 1 result.0.queues.items }
        { offer_by_value(rt, offers, item) },
        move || -> Popper<Item> { pop_late(rt, popper, 32) },
    );
    offered
}

fn offer_by_value<R: Wait>(rt: &R, offers: LaneOffers, item: Item) -> (LaneOffers, Offered)
    requires queues { AreQueues 1 offers.queues.items }
    requires place { item.member.place ≡ 0 }
    ensures { AreQueues 1 result.0.queues.items }
{
    let mut offers = offers;
    let offered = offer_one(rt, &mut offers, item);
    (offers, offered)
}

// Fills a queue with frames, and offers one item more to a late consumer: how many frames were queued, what became of the
// item, and how many were missed.
fn offer_past_frames<R: Threads + Wait + Clock + Abort + Sync>(
    rt: &R,
    alloc: Global,
    patient: bool,
    body: Said,
) -> (u32, Offered, u64) {
    let (mut offers, popper) = one_queue(rt, alloc, patient);
    let queued = offer_frames(rt, &mut offers, 64);
    let (offers, offered) = offer_to_a_late_consumer(rt, offers, popper, item(body));
    (queued, offered, offers.missed)
}

#[test]
fn bye_hello_and_reply_wait_where_the_queue_is_full(rt: HostRuntime) {
    let control = Control::Nack;
    for body in [
        Said::Bye { why: Why::Asked },
        Said::Hello { after: 0 },
        Said::Reply { control },
    ] {
        let seen = offer_past_frames(&rt, rt.alloc(), false, body);
        assert!(rt; seen == (64, Offered::Queued, 0));
    }
}

#[test]
fn a_patient_frame_waits_where_the_queue_is_full(rt: HostRuntime) {
    let seen = offer_past_frames(&rt, rt.alloc(), true, a_frame().body);
    assert!(rt; seen == (64, Offered::Queued, 0));
}
