//! A worker whose Bye waits at a full queue, beside the thread that empties it.
ghost use Rattle.std.specs.Prelude.{None};
ghost use Rattle.m17_worker.specs.Ready.{IsReady};

use crate::bench::must;
use crate::worker_bench::{Bench, event, join, lay, leaves, let_worker_go, run, sends};
use m17_control::{Body, Event, Item, Said, Why};
use m17_crew::{Order, Work};
use m17_lane::{Popper, Pusher};
use m17_ports::Book;
use m17_roll::RollSeat;
use m17_values::{Failed, Member};
use std::alloc::Global;
use std::process::Abort;
use std::sync::atomic::{AtomicU64, Ordering};
use std::sync::{Arc, Wait};
use std::thread;
use std::thread::Threads;
use std::time::{Clock, Duration};

// A book that keeps nothing, and counts its writes for another thread.
#[derive(Drop)]
struct CountingBook {
    writes: Arc<AtomicU64, Global>,
}

impl Book for CountingBook {
    ghost use Rattle.std.proofs.Common.{lit≤};

    type Label = ();

    ghost told = { λ _. record {
      written = None;
      faults = 0;
      device = record { mark = None; label = tt };
    } };

    ghost faults_fit = { λ _. lit≤ tt };

    fn write(&mut self, _bytes: &[u8]) -> Result<(), Failed> {
        self.writes.fetch_add(1, Ordering::SeqCst);
        Ok(())
    }
}

// What the thread beside the worker has: the end of the listener's queue, a seat at the roll, and how often the book
// was written.
#[derive(Drop)]
struct Beside {
    popper: Popper<Item>,
    seat: RollSeat,
    writes: Arc<AtomicU64, Global>,
}

// What that thread saw: the listener's place while the Bye waited and at the end, and how many frames there were.
#[derive(Drop)]
struct Seen {
    waiting: Option<u64>,
    frames: u64,
    seat: RollSeat,
}

// Waits until the book was written so often, or a few seconds.
fn wait_for<R: Wait + Clock>(rt: &R, writes: &Arc<AtomicU64, Global>, wanted: u64) {
    for _turn in 0..5_000u32 {
        if writes.load(Ordering::SeqCst) >= wanted {
            return;
        }
        thread::sleep(rt, Duration::from_millis(1));
    }
}

// Pops items up to a Bye: how many frames there were.
fn pop_to_a_bye<R: Wait>(rt: &R, popper: &mut Popper<Item>) -> u64 {
    let mut frames = 0u64;
    for _ in rt.forever() {
        match popper.pop_waiting(rt).body {
            Said::Frame { .. } => frames = frames.saturating_add(1),
            Said::Bye { .. } => return frames,
            _ => {}
        }
    }
    unreachable!()
}

// Waits until the book has its header and the records of all that stands before the Leave, so that the Bye has no room;
// looks at the listener's place, and then empties the queue.
fn empty_late<R: Wait + Clock>(rt: &R, beside: Beside) -> Seen {
    let mut beside = beside;
    wait_for(rt, &beside.writes, 73);
    thread::sleep(rt, Duration::from_millis(50));
    let waiting = beside.seat.look(1);
    let frames = pop_to_a_bye(rt, &mut beside.popper);
    Seen {
        waiting,
        frames,
        seat: beside.seat,
    }
}

// Does the job in one thread, while another empties the queue late.
fn run_beside<W: Work, R: Threads + Wait + Clock + Sync>(
    rt: &R,
    job: W,
    beside: Beside,
) -> (W, Seen)
    requires { W.ready job }
{
    thread::join(
        rt,
        move || -> W
            requires { W.ready job }
        { run(rt, job) },
        move || -> Seen { empty_late(rt, beside) },
    )
}

const TALKER: Member = Member {
    place: 0,
    generation: 0,
};

const LISTENER: Member = Member {
    place: 1,
    generation: 0,
};

// A talker and a listener join, 70 frames come, and the listener leaves.
fn push_events<R: Wait + Abort>(rt: &R, events: &mut Pusher<Event>) {
    events.push_waiting(rt, join(rt, 0, 1_000, TALKER));
    events.push_waiting(rt, join(rt, 1, 1_000, LISTENER));
    for number in 0..70u16 {
        events.push_waiting(rt, sends(2, 1_000, TALKER, number));
    }
    events.push_waiting(rt, leaves(3, 1_000, LISTENER, Why::Asked));
    events.push_waiting(rt, event(4, 1_000, Body::Stop));
}

// Does the job beside the thread that empties the last queue; both members have their places. How many frames came and
// how many were left out, and the word of the listener's place while the Bye waited and at the end.
fn go_beside<B: Book + Drop + Send + 'static, R: Threads + Wait + Clock + Abort + Sync>(
    rt: &R,
    bench: Bench<B>,
    writes: Arc<AtomicU64, Global>,
) -> ([u64; 2], [Option<u64>; 2])
    requires { IsReady B.told bench.worker }
{
    let mut bench = bench;
    push_events(rt, &mut bench.events);
    bench.orders.push_waiting(rt, Order::Go);
    assert!(rt; bench.other_seat.claim(0) == Some(TALKER));
    assert!(rt; bench.other_seat.claim(1) == Some(LISTENER));
    let beside = Beside {
        popper: bench.queues.pop().expect(rt, "two queues"),
        seat: bench.other_seat,
        writes,
    };
    let (worker, seen) = run_beside(rt, bench.worker, beside);
    let missed = worker.offers.missed;
    let_worker_go(worker);
    let mut seen = seen;
    let after = seen.seat.look(1);
    ([seen.frames, missed], [seen.waiting, after])
}

// Of 70 frames the queue takes 63 behind the Hello. The place is the listener's until its Bye is queued.
#[test]
fn a_place_is_kept_while_its_bye_waits_at_a_full_queue(rt: HostRuntime) {
    let alloc = rt.alloc();
    let writes = must(&rt, Arc::new(alloc, AtomicU64::new(0)));
    let book = CountingBook {
        writes: must(&rt, Arc::try_clone(&writes)),
    };
    let (frames, words) = go_beside(&rt, lay(&rt, alloc, 2, book, false), writes);
    assert!(rt; frames == [63, 7]);
    assert!(rt;
        words == [Some(1), Some(2)],
        "it has its place while the Bye waits, and then it was given back"
    );
}
