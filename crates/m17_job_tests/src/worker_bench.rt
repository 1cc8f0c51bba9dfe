//! A worker for tests, with the other ends of what it holds, and events for it.
ghost use Rattle.std.specs.Prelude.{◌<◌, ◌≤◌, []};
ghost use Rattle.m17_ports.specs.Told.{StartsEmpty};
ghost use Rattle.m17_roll.specs.Seat.{HasLists};
ghost use Rattle.m17_lane.specs.Rows.{IsNewRow};
ghost use Rattle.m17_worker.specs.Offers.{AreQueues};
ghost use Rattle.m17_worker.specs.Ready.{IsReady};

use crate::bench::must;
use m17_callsign::CallAddress;
use m17_control::{Body, Event, Item, Tag, Why};
use m17_crew::{Order, Work};
use m17_lane::{Popper, Pusher, make_one};
use m17_module::{Basket, Module};
use m17_ports::Book;
use m17_roll::{RollSeat, make};
use m17_samples::{ab1cd, frame, peer};
use m17_tape::Tape;
use m17_values::Member;
use m17_worker::{LaneOffers, Worker};
use std::alloc::Global;
use std::process::Abort;
use std::sync::Wait;

/// For how long a stream holds the floor in the tests' modules, in milliseconds.
pub(crate) const LIMIT: u64 = 180_000;

pub(crate) fn callsign(rt: &impl Abort) -> CallAddress {
    CallAddress::new(ab1cd()).expect(rt, "a callsign")
}

/// An event of link 0 that comes from the entry with this index.
pub(crate) fn event(index: u64, at: u64, body: Body) -> Event {
    Event {
        tag: Tag { link: 0, index },
        at,
        body,
    }
}

pub(crate) fn join(rt: &impl Abort, index: u64, at: u64, member: Member) -> Event {
    let body = Body::Join {
        member,
        peer: peer(1),
        callsign: callsign(rt),
        listen: false,
        after: 0,
    };
    event(index, at, body)
}

pub(crate) fn sends(index: u64, at: u64, member: Member, number: u16) -> Event {
    let packet = frame(7, number, false);
    event(index, at, Body::Packet { member, packet })
}

pub(crate) fn leaves(index: u64, at: u64, member: Member, why: Why) -> Event {
    event(index, at, Body::Leave { member, why })
}

/// A worker, and the other ends of what it holds.
#[derive(Drop)]
pub(crate) struct Bench<B> {
    pub(crate) worker: Worker<B>,
    pub(crate) queues: Vec<Popper<Item>>,
    pub(crate) events: Pusher<Event>,
    pub(crate) orders: Pusher<Order>,
    pub(crate) other_seat: RollSeat,
}

/// Lets a bench go.
pub(crate) fn let_go<B: Drop>(bench: Bench<B>) {
    drop(bench);
}

/// Lets a worker go.
pub(crate) fn let_worker_go<B: Drop>(_worker: Worker<B>) {}

// Queues for so many places.
fn lay_queues<R: Abort>(
    rt: &R,
    alloc: Global,
    places: u32,
) -> (Vec<Pusher<Item>>, Vec<Popper<Item>>)
    ensures queues { AreQueues places result.0.items }
    ensures new { IsNewRow result.0.items }
{
    let mut pushers = Vec::new(alloc);
    let mut poppers = Vec::new(alloc);
    for _ in 0..places {
        let (pusher, popper) = must(rt, make_one(alloc, 64));
        must(rt, pushers.push(pusher));
        must(rt, poppers.push(popper));
    }
    (pushers, poppers)
}

// Two new seats of a roll.
fn two_seats<R: Abort>(rt: &R, alloc: Global, places: u32) -> (RollSeat, RollSeat)
    requires { (0 < places) × (places ≤ 256) }
    ensures { HasLists [] [] [] result.0 }
{
    let mut seats = must(rt, make(alloc, places, 2));
    let second = seats.pop().expect(rt, "two seats");
    let first = seats.pop().expect(rt, "two seats");
    (first, second)
}

/// A worker of module A with one link and so many places, and that book; its tape has four cells, and its module may be
/// a parrot.
pub(crate) fn lay<B: Book + Drop, R: Abort>(
    rt: &R,
    alloc: Global,
    places: u32,
    book: B,
    parrot: bool,
) -> Bench<B>
    requires places { (0 < places) × (places ≤ 256) }
    requires book { StartsEmpty (B.told book).written }
    ensures { IsReady B.told result.worker }
{
    let (pushers, queues) = lay_queues(rt, alloc, places);
    let (events, inbox) = must(rt, make_one(alloc, 256));
    let (orders, order) = must(rt, make_one(alloc, 2));
    let (seat, other_seat) = two_seats(rt, alloc, places);
    let worker = Worker {
        letter: b'A',
        links: 1,
        limit: LIMIT,
        module: must(rt, Module::make(alloc, places, parrot, LIMIT)),
        basket: must(rt, Basket::make(alloc)),
        book,
        inbox,
        offers: LaneOffers {
            queues: pushers,
            patient: false,
            missed: 0,
        },
        order,
        seat,
        tape: must(rt, Tape::make(alloc, 4)),
        book_failed: false,
    };
    Bench {
        worker,
        queues,
        events,
        orders,
        other_seat,
    }
}

/// Does the job.
pub(crate) fn run<W: Work, R: Wait>(rt: &R, job: W) -> W
    requires { W.ready job }
    ensures { W.does job result }
{
    let mut job = job;
    job.go(rt);
    job
}
