//! A worker of a parrot, which hears of each Tick at once.
ghost use Rattle.std.specs.Prelude.{None};

use crate::worker_bench::{event, join, lay, let_worker_go, run, sends};
use m17_control::{Body, Event, Item, Said};
use m17_crew::{Order, Work};
use m17_lane::{Popper, Pusher};
use m17_port_memory::ListBook;
use m17_ports::Shelf;
use m17_samples::{frame, member};
use std::alloc::Global;
use std::process::Abort;
use std::sync::Wait;
use std::thread;
use std::thread::Threads;
use std::time::{Clock, Duration};

// Pops items up to an echo.
fn next_echo<R: Wait>(rt: &R, popper: &mut Popper<Item>) {
    for _ in rt.forever() {
        if let Said::Echo { .. } = popper.pop_waiting(rt).body {
            return;
        }
    }
    unreachable!()
}

// Says two frames, and asks for the echo of each by one Tick at its moment, pushed quietly while the worker is asleep.
fn ask_for_echoes<R: Wait + Clock + Abort>(rt: &R, events: Pusher<Event>, popper: Popper<Item>) {
    let mut events = events;
    let mut popper = popper;
    let talker = member(0, 0);
    let packet = frame(7, 1, true);
    let last = Body::Packet {
        member: talker,
        packet,
    };
    events.push_waiting(rt, join(rt, 0, 1_000, talker));
    events.push_waiting(rt, sends(1, 1_000, talker, 0));
    events.push_waiting(rt, event(2, 1_040, last));
    for at in [2_040, 2_080] {
        thread::sleep(rt, Duration::from_millis(20));
        events.push_quietly(rt, event(3, at, Body::Tick), 8);
        next_echo(rt, &mut popper);
    }
    events.push_waiting(rt, event(4, 2_100, Body::Stop));
}

// Does the job in one thread, while another asks for echoes.
fn run_beside<W: Work, R: Threads + Wait + Clock + Abort + Sync>(
    rt: &R,
    job: W,
    events: Pusher<Event>,
    popper: Popper<Item>,
) -> W
    requires { W.ready job }
{
    let (job, _) = thread::join(
        rt,
        move || -> W
            requires { W.ready job }
        { run(rt, job) },
        move || ask_for_echoes(rt, events, popper),
    );
    job
}

// The moment of a parrot's worker when it has ended, and how many events it admitted.
fn end_of_a_parrot<R: Threads + Wait + Clock + Abort + Sync>(
    rt: &R,
    alloc: Global,
    patient: bool,
) -> (u64, u64) {
    let inner: Option<ListBook> = None;
    let mut bench = lay(rt, alloc, 1, Shelf { inner }, true);
    bench.worker.offers.patient = patient;
    bench.orders.push_waiting(rt, Order::Go);
    let popper = bench.queues.pop().expect(rt, "a queue");
    let worker = run_beside(rt, bench.worker, bench.events, popper);
    let seen = (worker.module.moment(), worker.module.admitted());
    let_worker_go(worker);
    seen
}

// Where the worker dozed, or woke nobody for what it offered, the first echo would never come; the gate stops a test after
// 60 seconds.
#[test]
fn each_tick_wakes_a_parrot(rt: HostRuntime) {
    for patient in [false, true] {
        assert!(rt;
            end_of_a_parrot(&rt, rt.alloc(), patient) == (2_100, 2),
            "{patient}"
        );
    }
}
