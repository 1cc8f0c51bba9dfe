//! What no clause says of a run: that it goes and ends where there are threads and memory, and that it says its datagrams.
use crate::bench::{
    Ran, conn, disc, must, must_not, pair_of_books, plan, three_books, two_ears, two_mouths,
};
use m17_crew::{Crew, RefusingCrew, StdCrew};
use m17_port_memory::{ListBook, ListMouth, ScriptEar};
use m17_ports::Ear;
use m17_reflect::{HouseRefusal, Refused, Returned, reflect};
use m17_samples::{frame, peer, said};
use m17_values::{Heard, Peer};
use std::alloc::Global;
use std::process::Abort;
use std::sync::Wait;
use std::thread::Threads;

// What a link hears: two peers come to the module, the first says ten frames, and both leave.
fn evening(rt: &impl Abort, alloc: Global, letter: u8) -> Vec<Heard> {
    let mut heard = Vec::new(alloc);
    must(rt, heard.push(conn(rt, 1, 0, letter)));
    must(rt, heard.push(conn(rt, 2, 10, letter)));
    for number in 0..10u16 {
        let at = 100 + 40 * u64::from(number);
        let bytes = m17_stream::write(&frame(7, number, number == 9));
        must(rt, heard.push(said(1, at, &bytes)));
    }
    must(rt, heard.push(disc(rt, 2, 600)));
    must(rt, heard.push(disc(rt, 1, 610)));
    must(rt, heard.push(Heard::End));
    heard
}

// Runs two links, one on module A and one on module B.
fn run<C: Crew, R: Threads + Wait + Abort + Copy + Send + 'static>(
    rt: &R,
    alloc: Global,
    crew: &mut C,
) -> Ran<ScriptEar, ListMouth, ListBook> {
    let plan = plan(rt, "ABD", 4);
    let first = ScriptEar::new(evening(rt, alloc, b'A'));
    let ears = two_ears(rt, alloc, first, ScriptEar::new(evening(rt, alloc, b'B')));
    let mouths = two_mouths(rt, alloc, 64);
    let traces = pair_of_books(rt, alloc, 4096);
    let books = three_books(rt, alloc, 4096);
    let modules = plan.modules.count();
    assert!(rt; books.len() == modules as usize);
    reflect(rt, alloc, &plan, ears, mouths, traces, books, crew)
}

// How many datagrams the mouth said to this peer.
fn count_to(mouth: &ListMouth, peer: Peer) -> usize {
    mouth.list().iter().filter(|said| said.0 == peer).count()
}

// What each module admitted: nobody spoke on the third.
fn expect_admitted(rt: &impl Abort, done: &Returned<ScriptEar, ListMouth, ListBook>) {
    assert!(rt; done.admitted.as_slice() == [10, 10, 0].as_slice());
}

// What each mouth said and each trace begins with.
fn expect_said(rt: &impl Abort, done: &Returned<ScriptEar, ListMouth, ListBook>) {
    for mouth in done.mouths.iter() {
        assert!(rt; count_to(mouth, peer(1)) == 2 && count_to(mouth, peer(2)) == 12);
    }
    for trace in done.traces.iter() {
        assert!(rt; trace.bytes().starts_with(b"M17TRACE"));
    }
}

// Of two links on two modules each peer is told of its own module alone: an ACKN each, ten frames to the listener, and
// that each has left.
#[test]
fn two_links_run_over_threads(rt: HostRuntime) {
    let mut crew = StdCrew::new();
    let done = must(&rt, run(&rt, rt.alloc(), &mut crew));
    assert!(rt; !done.lost && !done.book_failed);
    expect_admitted(&rt, &done);
    assert!(rt; done.missed.as_slice() == [0, 0, 0].as_slice());
    expect_said(&rt, &done);
    drop(done);
}

// What comes back where nothing was run, of the devices of `run`: all are untouched, in their order.
fn expect_all_back(rt: &impl Abort, back: &mut Refused<ScriptEar, ListMouth, ListBook>) {
    assert!(rt; back.ears.len() == 2);
    for (ear, letter) in back.ears.iter_mut().zip([b'A', b'B']) {
        assert!(rt; ear.hear() == conn(rt, 1, 0, letter));
    }
    for mouth in back.mouths.iter() {
        assert!(rt; mouth.list().len() == 0);
    }
    for book in back.traces.iter().chain(back.books.iter()) {
        assert!(rt; book.bytes().len() == 0);
    }
}

// The crew refuses the start with this number.
fn refused_at<R: Threads + Wait + Abort + Copy + Send + 'static>(
    rt: &R,
    alloc: Global,
    start: u64,
) -> Refused<ScriptEar, ListMouth, ListBook> {
    let numbers = must(rt, Vec::from_array(alloc, [start]));
    let mut crew = RefusingCrew::new(numbers);
    must_not(rt, run(rt, alloc, &mut crew))
}

// Whichever start the crew refuses.
#[test]
fn a_refused_start_hands_all_back(rt: HostRuntime) {
    for start in 0..6 {
        let mut back = refused_at(&rt, rt.alloc(), start);
        assert!(rt; back.why == HouseRefusal::Crew);
        expect_all_back(&rt, &mut back);
        drop(back);
    }
}

// Whichever allocation of the run fails, also one for the start of a thread. By itself none does: `rt try --test
// --fail-alloc N` lets the Nth fail.
#[test]
fn want_of_memory_hands_all_back(rt: HostRuntime) {
    let mut crew = StdCrew::new();
    match run(&rt, rt.alloc(), &mut crew) {
        Ok(done) => expect_admitted(&rt, &done),
        Err(back) => {
            let mut back = back;
            expect_all_back(&rt, &mut back);
        }
    }
}
