//! What a sender says before its stop order comes: all that is queued, though nothing more is pushed to that queue.
//! Here the stop order is pushed when the mouth was handed as much as is wanted, or so late that the test fails.
ghost use Rattle.std.specs.Prelude.{◌<◌, None, Some};
ghost use Rattle.m17_sender.specs.Ready.{IsReady};

use crate::bench::must;
use crate::sender_bench::{
    Far, Laid, bye, done, hello, lay, let_far_go, let_sender_go, ping, push_five,
};
use m17_control::Item;
use m17_crew::Order;
use m17_lane::Pusher;
use m17_ports::Mouth;
use m17_sender::Sender;
use m17_values::{Failed, Peer};
use std::alloc::Global;
use std::process::Abort;
use std::sync::atomic::{AtomicU64, Ordering};
use std::sync::{Arc, Wait};
use std::thread;
use std::thread::Threads;
use std::time::{Clock, Duration};

// A mouth that counts what it is handed, for another thread.
#[derive(Drop)]
struct CountingMouth {
    handed: Arc<AtomicU64, Global>,
}

impl Mouth for CountingMouth {
    ghost use Rattle.std.proofs.Common.{lit≤};
    ghost use Rattle.m17_ports.specs.Untold.{names_nobody};

    type Label = ();

    ghost told = { λ _. record {
      said = None;
      tallies = λ _. None;
      faults = 0;
      device = record { mark = Some (record { number = 0; peers = None }); label = tt };
    } };

    ghost faults_fit = { λ _. lit≤ tt };

    ghost tells_named = { λ _. names_nobody };

    fn say(&mut self, _to: &Peer, _bytes: &[u8]) -> Result<(), Failed> {
        self.handed.fetch_add(1, Ordering::SeqCst);
        Ok(())
    }
}

// Waits until the mouth was handed so many datagrams, and says whether that came.
fn comes_to<R: Wait + Clock>(rt: &R, handed: &Arc<AtomicU64, Global>, wanted: u64) -> bool {
    for _turn in 0..5_000u32 {
        if handed.load(Ordering::SeqCst) >= wanted {
            return true;
        }
        thread::sleep(rt, Duration::from_millis(1));
    }
    false
}

// What the thread beside the sender does.
#[derive(Clone, Copy)]
enum Beside {
    // It waits for a burst of five, pushes another one when the sender sleeps, and waits for that.
    Bursts,
    // It waits for a PING, has the member leave whose note a greeting waits for, and waits for the DISC and the greeting.
    Leaving,
    // It waits until the sender stands at the full notes, and pops them.
    Notes,
}

// Sixty Byes.
fn push_byes<R: Wait>(rt: &R, end: &mut Pusher<Item>) {
    for _left in 0..60u32 {
        end.push_waiting(rt, bye(0, 0));
    }
}

// What the sender finds.
fn push_first<R: Wait>(rt: &R, far: &mut Far, beside: Beside) {
    far.orders.push_waiting(rt, Order::Go);
    match beside {
        Beside::Bursts => push_five(rt, &mut far.first, 0),
        Beside::Leaving => {
            far.first.push_waiting(rt, hello(0, 0, 1));
            far.second.push_waiting(rt, ping(1));
        }
        Beside::Notes => {
            far.orders.push_waiting(rt, Order::Stop);
            push_byes(rt, &mut far.first);
        }
    }
}

// Whether the first burst came to the mouth, and then the second one.
fn after_bursts<R: Wait + Clock>(rt: &R, far: &mut Far, handed: &Arc<AtomicU64, Global>) -> bool {
    let first = comes_to(rt, handed, 5);
    thread::sleep(rt, Duration::from_millis(5));
    push_five(rt, &mut far.first, 0);
    let second = comes_to(rt, handed, 10);
    far.orders.push_waiting(rt, Order::Stop);
    first && second
}

// Whether the PING came to the mouth, and then the DISC and the greeting.
fn after_leaving<R: Wait + Clock>(rt: &R, far: &mut Far, handed: &Arc<AtomicU64, Global>) -> bool {
    let asked = comes_to(rt, handed, 1);
    far.second.push_waiting(rt, bye(1, 0));
    let greeted = comes_to(rt, handed, 3);
    far.orders.push_waiting(rt, Order::Stop);
    asked && greeted
}

// Whether two datagrams came to the mouth, and no more before the first note was popped.
fn pop_late<R: Wait + Clock>(rt: &R, far: &mut Far, handed: &Arc<AtomicU64, Global>) -> bool {
    comes_to(rt, handed, 2);
    thread::sleep(rt, Duration::from_millis(20));
    let before = handed.load(Ordering::SeqCst);
    for _note in 0..60u32 {
        let _ = far.notes.pop_waiting(rt);
    }
    before == 2
}

fn watch<R: Wait + Clock>(
    rt: &R,
    far: &mut Far,
    handed: &Arc<AtomicU64, Global>,
    beside: Beside,
) -> bool {
    match beside {
        Beside::Bursts => after_bursts(rt, far, handed),
        Beside::Leaving => after_leaving(rt, far, handed),
        Beside::Notes => pop_late(rt, far, handed),
    }
}

fn go_beside<R: Wait + Clock>(
    rt: &R,
    far: Far,
    handed: Arc<AtomicU64, Global>,
    beside: Beside,
) -> bool {
    let mut far = far;
    let came = watch(rt, &mut far, &handed, beside);
    let_far_go(far);
    came
}

// A sender whose notes hold so many members, beside a thread that does this: whether that saw what it waited for, and how
// many datagrams the mouth was handed in the end.
fn send_beside<R: Threads + Wait + Clock + Abort + Sync>(
    rt: &R,
    alloc: Global,
    notes: u32,
    beside: Beside,
) -> (bool, u64)
    requires { 0 < notes }
{
    let handed = must(rt, Arc::new(alloc, AtomicU64::new(0)));
    let mouth = CountingMouth {
        handed: must(rt, Arc::try_clone(&handed)),
    };
    let count = must(rt, Arc::try_clone(&handed));
    let Laid { sender, mut far } = lay(rt, alloc, mouth, notes, 256);
    push_first(rt, &mut far, beside);
    let (came, sent) = thread::join(
        rt,
        move || go_beside(rt, far, count, beside),
        move || -> Sender<CountingMouth>
            requires { IsReady sender }
        { done(rt, sender) },
    );
    let_sender_go(sent);
    (came, handed.load(Ordering::SeqCst))
}

// Five items of one queue are said, though it is pushed to no more.
#[test]
fn a_burst_is_said_before_the_stop_order_comes(rt: HostRuntime) {
    assert!(rt; send_beside(&rt, rt.alloc(), 512, Beside::Bursts) == (true, 10));
}

// A greeting that is held back is said behind the note that it waits for, though its own queue is pushed to no more.
#[test]
fn a_greeting_is_said_before_the_stop_order_comes(rt: HostRuntime) {
    assert!(rt; send_beside(&rt, rt.alloc(), 512, Beside::Leaving) == (true, 3));
}

// Notes with room for one member hold the sender up while nobody pops them, and no longer.
#[test]
fn a_sender_at_full_notes_goes_on_when_they_are_popped(rt: HostRuntime) {
    assert!(rt; send_beside(&rt, rt.alloc(), 1, Beside::Notes) == (true, 60));
}
