//! What no clause says of a run's jobs: that jobs of the kinds that there are come apart, each part in its place.
ghost use Rattle.std.specs.Prelude.{◌≡◌, ◌≤◌, vec_len, vec_capacity};
ghost use Rattle.m17_reflect.specs.Parts.{HasReceiverRoom, HasWorkerRoom};

use crate::bench::{must, name};
use m17_control::Modules;
use m17_directory::{Directory, Post};
use m17_lane::{Popper, Pusher, make_one};
use m17_module::{Basket, Module};
use m17_receiver::Receiver;
use m17_reflect::{ReceiverParts, WorkerParts, part_receivers, part_workers};
use m17_roll::RollSeat;
use m17_tape::Tape;
use m17_worker::{LaneOffers, Worker};
use std::alloc::Global;
use std::process::Abort;

// An empty vector with room for two.
fn room<T: Drop, R: Abort>(rt: &R, alloc: Global) -> Vec<T>
    ensures { (vec_len result ≡ 0) × (2 ≤ vec_capacity result) }
{
    must(rt, Vec::with_capacity(alloc, 2))
}

// An end of a lane whose other end is gone.
fn pusher<T: Drop, R: Abort>(rt: &R, alloc: Global) -> Pusher<T> {
    must(rt, make_one(alloc, 2)).0
}

fn popper<T: Drop, R: Abort>(rt: &R, alloc: Global) -> Popper<T> {
    must(rt, make_one(alloc, 2)).1
}

// Two seats at one roll.
fn seats<R: Abort>(rt: &R, alloc: Global) -> (RollSeat, RollSeat) {
    let mut seats = must(rt, m17_roll::make(alloc, 4, 2));
    let first = seats.pop().expect(rt, "a seat");
    (first, seats.pop().expect(rt, "a seat"))
}

// A receiver whose devices are these, that has no inboxes. That of link 1 is lost.
fn receiver<R: Abort>(
    rt: &R,
    alloc: Global,
    link: u8,
    ear: u32,
    trace: u32,
    seat: RollSeat,
) -> Receiver<u32, u32> {
    let modules = must(rt, Modules::read("A"));
    Receiver {
        link,
        modules,
        places: 4,
        patient: false,
        ear,
        trace,
        directory: must(rt, Directory::make(alloc, link, name(rt), 4, modules)),
        post: must(rt, Post::make(alloc)),
        inboxes: Vec::new(alloc),
        door: pusher(rt, alloc),
        notes: popper(rt, alloc),
        order: popper(rt, alloc),
        seat,
        tape: Vec::new(alloc),
        lost: link == 1,
        trace_failed: false,
    }
}

// A worker with this book, that has left out so many items. The book of module B failed.
fn worker<R: Abort>(
    rt: &R,
    alloc: Global,
    letter: u8,
    book: u32,
    missed: u64,
    seat: RollSeat,
) -> Worker<u32> {
    Worker {
        letter,
        links: 1,
        limit: 0,
        module: must(rt, Module::make(alloc, 4, false, 0)),
        basket: must(rt, Basket::make(alloc)),
        book,
        inbox: popper(rt, alloc),
        offers: LaneOffers {
            queues: Vec::new(alloc),
            patient: false,
            missed,
        },
        order: popper(rt, alloc),
        seat,
        tape: must(rt, Tape::make(alloc, 0)),
        book_failed: letter == b'B',
    }
}

// Where the parts of two receivers come.
fn receiver_parts<R: Abort>(rt: &R, alloc: Global) -> ReceiverParts<u32, u32>
    ensures room { HasReceiverRoom 2 result }
{
    ReceiverParts {
        ears: room(rt, alloc),
        traces: room(rt, alloc),
        columns: room(rt, alloc),
        doors: room(rt, alloc),
        noted: room(rt, alloc),
        orders: room(rt, alloc),
        tapes: room(rt, alloc),
        lost: false,
        failed: false,
    }
}

// Where the parts of two workers come.
fn worker_parts<R: Abort>(rt: &R, alloc: Global) -> WorkerParts<u32>
    ensures room { HasWorkerRoom 2 result }
{
    WorkerParts {
        books: room(rt, alloc),
        inboxes: room(rt, alloc),
        queues: room(rt, alloc),
        orders: room(rt, alloc),
        tapes: room(rt, alloc),
        missed: room(rt, alloc),
        admitted: room(rt, alloc),
        failed: false,
    }
}

// The parts of two receivers.
fn parted_receivers<R: Abort>(rt: &R, alloc: Global) -> (ReceiverParts<u32, u32>, Vec<RollSeat>) {
    let (first, second) = seats(rt, alloc);
    let first = receiver(rt, alloc, 0, 70, 80, first);
    let second = receiver(rt, alloc, 1, 71, 81, second);
    let mut jobs = must(rt, Vec::from_array(alloc, [first, second]));
    let mut seats = room(rt, alloc);
    let mut parts = receiver_parts(rt, alloc);
    part_receivers(&mut jobs, &mut seats, &mut parts);
    (parts, seats)
}

#[test]
fn receivers_come_apart_in_order(rt: HostRuntime) {
    let (parts, seats) = parted_receivers(&rt, rt.alloc());
    assert!(rt; parts.ears.as_slice() == [70, 71].as_slice());
    assert!(rt; parts.traces.as_slice() == [80, 81].as_slice());
    assert!(rt; parts.doors.len() == 2 && seats.len() == 2);
    assert!(rt; parts.lost && !parts.failed, "the second link is lost");
    drop(parts);
}

// The parts of two workers.
fn parted_workers<R: Abort>(rt: &R, alloc: Global) -> WorkerParts<u32> {
    let (first, second) = seats(rt, alloc);
    let first = worker(rt, alloc, b'A', 90, 5, first);
    let second = worker(rt, alloc, b'B', 91, 6, second);
    let mut jobs = must(rt, Vec::from_array(alloc, [first, second]));
    let mut seats = room(rt, alloc);
    let mut parts = worker_parts(rt, alloc);
    part_workers(&mut jobs, &mut seats, &mut parts);
    parts
}

#[test]
fn workers_come_apart_in_order(rt: HostRuntime) {
    let parts = parted_workers(&rt, rt.alloc());
    assert!(rt; parts.books.as_slice() == [90, 91].as_slice());
    assert!(rt; parts.missed.as_slice() == [5, 6].as_slice());
    assert!(rt; parts.admitted.as_slice() == [0, 0].as_slice());
    assert!(rt; parts.failed, "the second book failed");
    drop(parts);
}
