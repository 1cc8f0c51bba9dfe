ghost use Rattle.std.specs.Prelude.{◌≡◌};

use crate::bench::must;
use crate::disk_bench::{Gated, Shared};
use m17_disk::{Hand, QueuedBook, Unsettled, all_written, open, settle};
use m17_port_memory::ListBook;
use m17_ports::Book;
use m17_values::Failed;
use std::alloc::Global;
use std::process::Abort;
use std::sync::atomic::Ordering;
use std::sync::{Arc, Wait};
use std::thread;
use std::thread::Threads;
use std::time::{Clock, Duration};

// A book over one that a test can shut, and its thread.
fn opened<R: Threads + Wait + Clock + Abort + Copy + Drop + Send + 'static>(
    rt: R,
    alloc: Global,
    shared: &Arc<Shared, Global>,
) -> (QueuedBook<R>, Hand<Gated<R>>) {
    let gated = Gated::new(rt, must(&rt, Arc::try_clone(shared)));
    must(&rt, open(rt, alloc, gated, 7))
}

// Brings the thread to its end: what is said of it.
fn settled<R: Threads + Wait + Clock + Abort + Drop + Send + 'static>(
    rt: &R,
    alloc: Global,
    hand: Hand<Gated<R>>,
) -> Result<(), Unsettled> {
    let mut hands = must(rt, Vec::with_capacity(alloc, 1));
    hands.push_reserved(hand);
    let mut ended = must(rt, Vec::with_capacity(alloc, 1));
    settle(rt, &mut hands, &mut ended)
}

// Brings two threads to their end, the other before the one: what is said of them, and whether the one alone came to it.
fn both_settled<R: Threads + Wait + Clock + Abort + Drop + Send + 'static>(
    rt: &R,
    alloc: Global,
    one: Hand<Gated<R>>,
    other: Hand<Gated<R>>,
) -> (Result<(), Unsettled>, bool) {
    let mut hands = must(rt, Vec::with_capacity(alloc, 2));
    hands.push_reserved(one);
    hands.push_reserved(other);
    let mut ended = must(rt, Vec::with_capacity(alloc, 2));
    let said = settle(rt, &mut hands, &mut ended);
    let one_alone = matches!(ended.as_slice(), [None, Some(_)]);
    (said, one_alone)
}

// Writes the next bytes, one at a time, up to so many or to the first that is not taken: how many were taken.
fn write_bytes<B: Book>(book: &mut B, count: u32) -> u32 {
    for i in 0..count {
        if book.write(&[(i % 251) as u8]).is_err() {
            return i;
        }
    }
    count
}

// Up to 32 writes are with the thread, and 2,048 wait. The end comes though the thread doesn't.
#[test]
fn a_book_whose_thread_hangs_fails_when_its_lane_is_full(rt: HostRuntime) {
    let shared = Shared::make(&rt, rt.alloc(), true);
    let (mut book, hand) = opened(rt, rt.alloc(), &shared);
    let taken = write_bytes(&mut book, 3000);
    let more = book.write(b"0").is_ok();
    let late = settled(&rt, rt.alloc(), hand) == Err(Unsettled::Late);
    let seen = shared.seen();
    shared.shut.store(false, Ordering::SeqCst);
    assert!(rt; taken >= 2048 && taken <= 2080 && !more && late && seen == (0, 0));
}

// The other thread hangs in its first write, and uses up the time that both have together. The one has its own tenth of a
// second then, and ends.
#[test]
fn a_thread_behind_one_that_hangs_still_comes_to_its_end(rt: HostRuntime) {
    let shared = Shared::make(&rt, rt.alloc(), false);
    let (mut book, one) = opened(rt, rt.alloc(), &shared);
    let shut = Shared::make(&rt, rt.alloc(), true);
    let (mut hanging, other) = opened(rt, rt.alloc(), &shut);
    let taken = (write_bytes(&mut book, 3), write_bytes(&mut hanging, 1));
    let (said, one_alone) = both_settled(&rt, rt.alloc(), one, other);
    shut.shut.store(false, Ordering::SeqCst);
    let late = said == Err(Unsettled::Late);
    assert!(rt; taken == (3, 1) && late && one_alone && shared.seen() == (3, 0));
}

#[test]
fn a_thread_that_comes_back_writes_all_that_waits(rt: HostRuntime) {
    let shared = Shared::make(&rt, rt.alloc(), true);
    let (mut book, hand) = opened(rt, rt.alloc(), &shared);
    let taken = write_bytes(&mut book, 2048);
    shared.shut.store(false, Ordering::SeqCst);
    let settled = settled(&rt, rt.alloc(), hand).is_ok();
    assert!(rt; taken == 2048 && settled && shared.seen() == (2048, 0));
}

// Writes until that fails, for a second at the most: whether it came to fail.
fn comes_to_fail<B: Book, R: Clock>(rt: &R, book: &mut B) -> bool {
    for _try in 0..1000 {
        if book.write(&[0]).is_err() {
            return true;
        }
        thread::sleep(rt, Duration::from_millis(1));
    }
    false
}

// The first write is taken, a later one is not, and none behind that, though the thread's book would take it.
#[test]
fn a_book_whose_thread_failed_fails(rt: HostRuntime) {
    let shared = Shared::make(&rt, rt.alloc(), false);
    shared.fails.store(true, Ordering::SeqCst);
    let (mut book, hand) = opened(rt, rt.alloc(), &shared);
    let first = book.write(&[0]).is_ok();
    let fails = comes_to_fail(&rt, &mut book);
    shared.fails.store(false, Ordering::SeqCst);
    let more = book.write(&[0]).is_ok();
    let failed = settled(&rt, rt.alloc(), hand) == Err(Unsettled::Failed);
    assert!(rt; first && fails && !more && failed && shared.seen() == (0, 0));
}

// Three writes to a book in memory, of which the second has no bytes: what it holds when its thread has ended, and whether
// that is known to be all.
fn three_written<R: Threads + Wait + Clock + Abort + Copy + Drop + Send + 'static>(
    rt: R,
    alloc: Global,
) -> (ListBook, bool) {
    let inner = must(&rt, ListBook::make(alloc, 100, Vec::new(alloc)));
    let (mut book, hand) = must(&rt, open(rt, alloc, inner, 7));
    must(&rt, book.write(b"header"));
    must(&rt, book.write(b""));
    must(&rt, book.write(b"record"));
    let mut rests = 5000;
    let writer = hand.end(&rt, &mut rests).expect(&rt, "the end");
    must(&rt, all_written(&rt, alloc, book, writer))
}

#[test]
fn a_book_that_is_back_with_its_thread_is_known_whole(rt: HostRuntime) {
    let (inner, all) = three_written(rt, rt.alloc());
    assert!(rt; all && inner.bytes() == b"headerrecord".as_slice());
}

// A write of 112 bytes is handed over; one of more fails, and nothing of it is.
#[test]
fn a_long_write_fails(rt: HostRuntime) {
    let shared = Shared::make(&rt, rt.alloc(), false);
    let (mut book, hand) = opened(rt, rt.alloc(), &shared);
    let longest = book.write(&[0; 112]).is_ok();
    let long = book.write(&[0; 113]) == Err(Failed);
    let settled = settled(&rt, rt.alloc(), hand).is_ok();
    assert!(rt; longest && long && settled && shared.seen().0 == 112);
}
