//! Queues beyond the first 4,096: the sender finds what is there by its hint, and says it before its stop order comes. At
//! its end it would find it too, since it tries all queues then; so the stop order waits for the mouth.
ghost use Rattle.std.specs.Prelude.{None, Some};
ghost use Rattle.m17_sender.specs.Ready.{IsReady};

use crate::thread_tests_bench::{Laid, lay, must, ping};
use m17_control::Item;
use m17_crew::{Order, Work};
use m17_lane::Pusher;
use m17_ports::Mouth;
use m17_sender::Sender;
use m17_values::{Failed, Peer};
use std::alloc::Global;
use std::process::Abort;
use std::sync::atomic::{AtomicU64, Ordering};
use std::sync::{Arc, Wait};
use std::thread;
use std::thread::Threads;
use std::time::{Clock, Duration};

// A mouth that counts what it is handed, for another thread.
#[derive(Drop)]
struct CountingMouth {
    handed: Arc<AtomicU64, Global>,
}

impl Mouth for CountingMouth {
    ghost use Rattle.std.proofs.Common.{lit≤};
    ghost use Rattle.m17_ports.specs.Untold.{names_nobody};

    type Label = ();

    ghost told = { λ _. record {
      said = None;
      tallies = λ _. None;
      faults = 0;
      device = record { mark = Some (record { number = 0; peers = None }); label = tt };
    } };

    ghost faults_fit = { λ _. lit≤ tt };

    ghost tells_named = { λ _. names_nobody };

    fn say(&mut self, _to: &Peer, _bytes: &[u8]) -> Result<(), Failed> {
        self.handed.fetch_add(1, Ordering::SeqCst);
        Ok(())
    }
}

// Waits until the mouth was handed so many datagrams, and says whether that came.
fn comes_to<R: Wait + Clock>(rt: &R, handed: &Arc<AtomicU64, Global>, wanted: u64) -> bool {
    for _turn in 0..5_000u32 {
        if handed.load(Ordering::SeqCst) >= wanted {
            return true;
        }
        thread::sleep(rt, Duration::from_millis(1));
    }
    false
}

// Where something is pushed: in the first word, which is soon empty; in the one behind it, which has more when the later ones
// are empty; in the last of the first 64 words; and in both words behind these.
const PLACES: [u32; 9] = [0, 64, 64, 64, 64, 4_095, 4_096, 4_159, 4_160];

fn push_pings<R: Wait>(rt: &R, queues: &mut Vec<Pusher<Item>>) {
    for place in PLACES.iter() {
        if let Some(end) = queues.get_mut(*place as usize) {
            end.push_waiting(rt, ping(*place));
        }
    }
}

// Waits until the mouth was handed so many datagrams, and then tells the sender to stop: whether that came.
fn stop_then<R: Wait + Clock>(
    rt: &R,
    orders: Pusher<Order>,
    handed: Arc<AtomicU64, Global>,
    wanted: u64,
) -> bool {
    let mut orders = orders;
    let came = comes_to(rt, &handed, wanted);
    orders.push_waiting(rt, Order::Stop);
    came
}

fn send<R: Wait>(rt: &R, sender: Sender<CountingMouth>) -> Sender<CountingMouth>
    requires { IsReady sender }
{
    let mut sender = sender;
    sender.go(rt);
    sender
}

fn let_go(_sender: Sender<CountingMouth>) {}

// Whether all that was pushed came to the mouth before the stop order, and how much did in the end.
fn send_beside<R: Threads + Wait + Clock + Abort + Sync>(rt: &R, alloc: Global) -> (bool, u64) {
    let handed = must(rt, Arc::new(alloc, AtomicU64::new(0)));
    let mouth = CountingMouth {
        handed: must(rt, Arc::try_clone(&handed)),
    };
    let count = must(rt, Arc::try_clone(&handed));
    let Laid {
        sender,
        mut queues,
        door: _door,
        mut orders,
        notes: _notes,
    } = lay(rt, alloc, mouth);
    orders.push_waiting(rt, Order::Go);
    push_pings(rt, &mut queues);
    let (came, sent) = thread::join(
        rt,
        move || stop_then(rt, orders, count, 9),
        move || -> Sender<CountingMouth>
            requires { IsReady sender }
        { send(rt, sender) },
    );
    let_go(sent);
    (came, handed.load(Ordering::SeqCst))
}

#[test]
fn an_item_beyond_queue_4096_is_said_before_the_stop_order_comes(rt: HostRuntime) {
    assert!(rt; send_beside(&rt, rt.alloc()) == (true, 9));
}
