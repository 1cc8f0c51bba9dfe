//! A watch writes a line while somebody posts, and ends when it is told to; and the end of its board writes the last lines.
ghost use Rattle.m17_board.specs.Ends.{IsPair};

use crate::bench::must;
use crate::board_bench::{join, one_pair};
use m17_board::{Eye, Poster, Watch};
use m17_control::Modules;
use m17_crew::{Order, Work};
use m17_lane::{Pusher, make_one};
use m17_port_memory::ListBook;
use m17_ports::Book;
use m17_values::Failed;
use std::alloc::Global;
use std::process::Abort;
use std::sync::atomic::{AtomicU64, Ordering};
use std::sync::{Arc, Wait};
use std::thread;
use std::thread::Threads;
use std::time::{Clock, Duration};

// How often the poster looks for a line, one millisecond apart.
const MOST_LOOKS: u32 = 20_000;

// A book that says to another thread that it was written.
#[derive(Drop)]
struct CountingBook<B: Book + Drop> {
    inner: B,
    writes: Arc<AtomicU64, Global>,
}

impl<B: Book + Drop> Book for CountingBook<B> {
    type Label = B::Label;

    ghost told = { λ b. B.told b.inner };

    ghost faults_fit = { λ b. B.faults_fit b.inner };

    fn write(&mut self, bytes: &[u8]) -> Result<(), Failed> {
        let done = self.inner.write(bytes);
        self.writes.store(1, Ordering::SeqCst);
        done
    }
}

// Posts a record, waits for a line, and orders to quit: whether the line came.
fn post_and_quit<R: Wait + Clock + Abort>(
    rt: &R,
    poster: Poster,
    orders: Pusher<Order>,
    writes: &Arc<AtomicU64, Global>,
) -> bool {
    let mut poster = poster;
    let mut orders = orders;
    poster.post(rt, &join(rt, 10, 0));
    let mut came = false;
    for _ in 0..MOST_LOOKS {
        if writes.load(Ordering::SeqCst) > 0 {
            came = true;
            break;
        }
        thread::sleep(rt, Duration::from_millis(1));
    }
    orders.push_waiting(rt, Order::Quit);
    came
}

// One thread watches, and another posts: the watch, and whether a line came before its end.
fn both<R: Threads + Wait + Clock + Abort + Sync>(
    rt: &R,
    watch: Watch<CountingBook<ListBook>, R>,
    poster: Poster,
    orders: Pusher<Order>,
    writes: Arc<AtomicU64, Global>,
) -> (Watch<CountingBook<ListBook>, R>, bool)
where
    R: Copy + Send + Drop + 'static,
{
    thread::join(
        rt,
        move || {
            let mut watch = watch;
            watch.go(rt);
            watch
        },
        move || post_and_quit(rt, poster, orders, &writes),
    )
}

#[test]
fn a_line_comes_while_the_watch_goes_on(rt: HostRuntime) {
    let alloc = rt.alloc();
    let (poster, eye) = one_pair(&rt, alloc);
    let (pusher, order) = must(&rt, make_one(alloc, 4));
    let writes = must(&rt, Arc::new(alloc, AtomicU64::new(0)));
    let watch = Watch {
        modules: must(&rt, Modules::read("A")),
        eyes: must(&rt, Vec::from_array(alloc, [eye])),
        last: must(&rt, Vec::from_array(alloc, [0])),
        book: CountingBook {
            inner: must(&rt, ListBook::make(alloc, 256, Vec::new(alloc))),
            writes: must(&rt, Arc::try_clone(&writes)),
        },
        failed: false,
        order,
        clock: rt,
    };
    let (watch, came) = both(&rt, watch, poster, pusher, writes);
    assert!(rt; came && !watch.failed);
    assert!(rt;
        watch.book.inner.bytes() == b"A records 1 admitted 0 at 10 talker none\n".as_slice()
    );
    drop(watch);
}

// The ends of a module of which one record was posted, with this moment.
fn joined<R: Wait + Abort>(rt: &R, alloc: Global, moment: u64) -> (Poster, Eye)
    ensures { IsPair result.0 result.1 }
{
    let (mut poster, eye) = one_pair(rt, alloc);
    poster.post(rt, &join(rt, moment, 0));
    (poster, eye)
}

// Whatever came first.
#[test]
fn the_last_lines_come_in_order_of_letters(rt: HostRuntime) {
    let alloc = rt.alloc();
    let (z, of_z) = joined(&rt, alloc, 10);
    let (c, of_c) = joined(&rt, alloc, 20);
    let (a, of_a) = joined(&rt, alloc, 30);
    let modules = must(&rt, Modules::read("CZA"));
    assert!(rt; modules.count() == 3);
    let (_, order) = must(&rt, make_one(alloc, 4));
    let watch = Watch {
        modules,
        eyes: must(&rt, Vec::from_array(alloc, [of_a, of_c, of_z])),
        last: must(&rt, Vec::from_array(alloc, [0, 0, 0])),
        book: must(&rt, ListBook::make(alloc, 256, Vec::new(alloc))),
        failed: false,
        order,
        clock: rt,
    };
    let posters = must(&rt, Vec::from_array(alloc, [a, c, z]));
    let mut glances = must(&rt, Vec::with_capacity(alloc, 3));
    let (book, failed) = watch.end(&rt, alloc, posters, &mut glances);
    assert!(rt; !failed);
    assert!(rt;
        book.bytes()
            == b"A records 1 admitted 0 at 30 talker none\nC records 1 admitted 0 at 20 talker none\nZ records 1 admitted 0 at 10 talker none\n".as_slice()
    );
    drop(book);
}
