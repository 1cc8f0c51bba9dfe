//! Two links with two made evenings on the same three modules: what the books then hold, and that they are legal.

use crate::bench::{must, pair_of_books, plan, three_books, two_ears, two_mouths};
use m17_book::{Record, Report, check_book_for, read_book};
use m17_crew::StdCrew;
use m17_port_memory::{ListBook, ListMouth, ScriptEar};
use m17_reflect::{Returned, reflect};
use m17_streams::{BytesSink, BytesSource};
use m17_text_commands::Maker;
use m17_values::{Heard, Member};
use std::alloc::Global;
use std::process::Abort;
use std::sync::Wait;
use std::thread::Threads;

// The entries of the evening that is drawn from this seed.
fn made(rt: &impl Abort, alloc: Global, seed: u64) -> Vec<Heard> {
    let mut maker = Maker::new(seed);
    let mut heard = Vec::new(alloc);
    for _entry in 0..2_000u32 {
        if maker.entry() < 2_000 {
            must(rt, heard.push(maker.next()));
        }
    }
    heard
}

// Runs both evenings over three modules with 64 places.
fn run<R: Threads + Wait + Abort + Copy + Send + 'static>(
    rt: &R,
    alloc: Global,
) -> Returned<ScriptEar, ListMouth, ListBook> {
    let plan = plan(rt, "ABC", 64);
    let first = ScriptEar::new(made(rt, alloc, 1));
    let ears = two_ears(rt, alloc, first, ScriptEar::new(made(rt, alloc, 2)));
    let mouths = two_mouths(rt, alloc, 50_000);
    let traces = pair_of_books(rt, alloc, 200_000);
    let books = three_books(rt, alloc, 400_000);
    let modules = plan.modules.count();
    assert!(rt; books.len() == modules as usize);
    let mut crew = StdCrew::new();
    must(
        rt,
        reflect(rt, alloc, &plan, ears, mouths, traces, books, &mut crew),
    )
}

// The records of this book.
fn records_of(rt: &impl Abort, alloc: Global, book: &ListBook) -> Vec<Record> {
    let bytes = must(rt, book.bytes().to_vec(alloc));
    let mut source = BytesSource::new(bytes, Vec::new(alloc));
    must(rt, read_book(alloc, &mut source)).1
}

// Appends the members that join by these records.
fn add_joined(rt: &impl Abort, records: &Vec<Record>, joined: &mut Vec<Member>) {
    for record in records.iter() {
        if let Record::Join { member, .. } = record {
            must(rt, joined.push(*member));
        }
    }
}

// The members that join by the books.
fn all_joined(rt: &impl Abort, alloc: Global, books: &Vec<ListBook>) -> Vec<Member> {
    let mut joined = Vec::new(alloc);
    for book in books.iter() {
        add_joined(rt, &records_of(rt, alloc, book), &mut joined);
    }
    joined
}

// Whether each member stands once.
fn differ(members: &Vec<Member>) -> bool {
    members.iter().enumerate().all(|(at, member)| {
        !members.iter().skip(at + 1).any(|other| other == member)
    })
}

// Twelve hotspots of each link join once: all 24 in the books, each as a member of its own.
#[test]
fn the_books_hold_all_who_joined(rt: HostRuntime) {
    let done = run(&rt, rt.alloc());
    assert!(rt; !done.lost && !done.book_failed);
    let joined = all_joined(&rt, rt.alloc(), &done.books);
    drop(done);
    assert!(rt; joined.len() == 24 && differ(&joined));
}

// What is said of this book, which is legal; where it is not, the test ends.
fn report_of(rt: &impl Abort, alloc: Global, book: &ListBook) -> Report {
    let bytes = must(rt, book.bytes().to_vec(alloc));
    let mut source = BytesSource::new(bytes, Vec::new(alloc));
    let silent = must(rt, BytesSink::make(alloc, 0, Vec::new(alloc)));
    must(rt, must(rt, check_book_for(&mut source, &silent)))
}

// How many bytes a record of this kind has.
fn length_of(kind: u8) -> usize {
    match kind {
        1 => 37,
        2 => 31,
        _ => 97,
    }
}

// How many records the bytes of a book have, how many packets with the verdict opened, and with that or continued.
fn counted(bytes: &[u8]) -> Report {
    let mut report = Report {
        records: 0,
        streams: 0,
        admitted: 0,
    };
    let mut at: usize = 17;
    for _record in 0..bytes.len() {
        let Some(kind) = bytes.get(at) else {
            return report;
        };
        let verdict = bytes.get(at.saturating_add(30)).copied().unwrap_or(0);
        let (opened, continued) = (*kind == 3 && verdict == 1, *kind == 3 && verdict == 2);
        report.records = report.records.saturating_add(1);
        report.streams = report.streams.saturating_add(u64::from(opened));
        report.admitted = report
            .admitted
            .saturating_add(u64::from(opened || continued));
        at = at.saturating_add(length_of(*kind));
    }
    report
}

// Whether each of these books is legal, is told to hold what its bytes hold, and has as many admitted packets as its
// module counted.
fn are_legal(rt: &impl Abort, alloc: Global, books: &Vec<ListBook>, admitted: &Vec<u64>) -> bool {
    for (book, count) in books.iter().zip(admitted.iter()) {
        let report = report_of(rt, alloc, book);
        if report != counted(book.bytes()) || report.admitted != *count || report.streams == 0 {
            return false;
        }
    }
    true
}

#[test]
fn each_book_is_legal(rt: HostRuntime) {
    let done = run(&rt, rt.alloc());
    let (failed, books) = (done.lost || done.book_failed, done.books.len());
    let legal = are_legal(&rt, rt.alloc(), &done.books, &done.admitted);
    drop(done);
    assert!(rt; !failed && books == 3 && legal);
}
