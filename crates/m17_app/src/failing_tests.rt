//! An evening of `serve`, in which each device fails at each of its calls in turn: the status and its text, what each
//! peer is told, and what stands in the files.
use crate::done::Done;
use crate::failing_outcomes::{
    BOOK_BEFORE, Back, CALLS, Device, LOST, LOST_LATE, Outcome, PORT_FAILED, SOUND, UNTOUCHED,
    wanted_of,
};
use crate::fitted::BehindMouth;
use crate::serve_tests::{BOOK, evening, packet};
use crate::talk_tests::peer;
use crate::tests::{must, run_over, text_of};
use m17_book::write_entry;
use m17_crew::RefusingCrew;
use m17_port_memory::{FaultyEar, ListBook, ListMouth, ScriptEar, ScriptPorts};
use m17_ports::{Ear, Shelf};
use m17_streams::{BytesSink, BytesSource};
use m17_values::{Gram, Heard, Peer};
use std::alloc::Global;
use std::process::Abort;
use std::sync::Wait;
use std::thread::Threads;
use std::time::Clock;

/// A device of which the call of this number fails, and so many calls from it on.
type Failing = (Device, u64, u64);

/// The numbers of the calls of this device that fail.
fn calls(rt: &impl Abort, alloc: Global, failing: &[Failing], device: Device) -> Vec<u64> {
    let mut calls = Vec::new(alloc);
    for (failed, from, count) in failing {
        if *failed == device {
            for call in *from..from.saturating_add(*count) {
                must(rt, calls.push(call));
            }
        }
    }
    calls
}

/// What the ear hears: the evening, and a fault at each of its calls that fail.
fn heard(rt: &impl Abort, alloc: Global, failing: &[Failing]) -> Vec<Heard> {
    let fails = calls(rt, alloc, failing, Device::Ear);
    let mut ear = FaultyEar::new(ScriptEar::new(evening(rt, alloc)), fails);
    let mut heard = Vec::new(alloc);
    for _call in 0..100 {
        match ear.hear() {
            Heard::End => return heard,
            entry => must(rt, heard.push(entry)),
        }
    }
    heard
}

/// The trace of what the ear hears.
fn trace_of(rt: &impl Abort, alloc: Global, failing: &[Failing]) -> Vec<u8> {
    let heard = heard(rt, alloc, failing);
    let mut trace = must(rt, b"M17TRACE".to_vec(alloc));
    for entry in heard.iter() {
        let entry = write_entry(entry).expect(rt, "an entry");
        must(rt, trace.extend_from_slice(entry.as_slice()));
    }
    trace
}

/// A book that fails at the calls of this device.
fn book(rt: &impl Abort, alloc: Global, failing: &[Failing], device: Device) -> ListBook {
    let fails = calls(rt, alloc, failing, device);
    must(rt, ListBook::make(alloc, 1_000, fails))
}

/// Ports with one link, whose ear hears the evening, its trace, and the book of the one module.
fn ports(rt: &impl Abort, alloc: Global, failing: &[Failing]) -> ScriptPorts {
    let ear = ScriptEar::new(heard(rt, alloc, failing));
    let fails = calls(rt, alloc, failing, Device::Mouth);
    let mouth = must(rt, ListMouth::make(alloc, 16, fails));
    let trace = book(rt, alloc, failing, Device::Trace);
    let book = book(rt, alloc, failing, Device::Book);
    let links = must(rt, Vec::from_array(alloc, [(ear, mouth)]));
    let books = must(rt, Vec::from_array(alloc, [trace, book]));
    ScriptPorts::new(links, books, calls(rt, alloc, failing, Device::Ports))
}

type Serve<R> = Done<ScriptEar, ListMouth, ListBook, R>;

/// Runs the evening: what it came to, and what was printed.
fn served<R: Threads + Wait + Clock + Abort + Copy + Drop + Send + 'static>(
    rt: &R,
    alloc: Global,
    failing: &[Failing],
) -> (Serve<R>, Vec<u8>) {
    let ports = ports(rt, alloc, failing);
    let mut crew = RefusingCrew::new(calls(rt, alloc, failing, Device::Crew));
    let mut source = BytesSource::new(Vec::new(alloc), Vec::new(alloc));
    let fails = calls(rt, alloc, failing, Device::Sink);
    let mut sink = must(rt, BytesSink::make(alloc, 100, fails));
    let done = run_over(rt, alloc, BOOK, ports, &mut crew, &mut source, &mut sink);
    let text = must(rt, sink.bytes().to_vec(alloc));
    (done, text)
}

/// Which of these datagrams this one is, counted from 1; 0 where it is none.
fn place_in(all: &[&[u8]], said: &[u8]) -> usize {
    let place = all.iter().position(|one| *one == said);
    place.map_or(0, |place| place.saturating_add(1))
}

/// Which of the datagrams to this peer this one is, counted from 1; 0 where it is none.
fn place_of(to: &Peer, said: &[u8]) -> usize {
    let to_talker: [&[u8]; 2] = [b"ACKN", b"DISC\x00\x13\x89\xf9\xba\xed"];
    let (first, second) = (packet(1), packet(2));
    let to_listener: [&[u8]; 4] = [b"ACKN", &first, &second, b"DISC"];
    if *to == peer(1) {
        place_in(&to_talker, said)
    } else {
        place_in(&to_listener, said)
    }
}

/// How many datagrams were said, where each is one of those that its peer is to be told, and they are in order.
fn said(list: &[(Peer, Gram)]) -> Option<usize> {
    let (mut of_talker, mut of_listener) = (0, 0);
    for (to, gram) in list {
        let place = place_of(to, gram.bytes());
        let is_talker = *to == peer(1);
        let before = if is_talker { of_talker } else { of_listener };
        if place <= before {
            return None;
        }
        if is_talker {
            of_talker = place;
        } else {
            of_listener = place;
        }
    }
    Some(list.len())
}

/// How many bytes a file has, where it is a first part of these.
fn kept(shelf: &Shelf<ListBook>, whole: &[u8]) -> Option<usize> {
    match &shelf.inner {
        Some(book) if whole.starts_with(book.bytes()) => Some(book.bytes().len()),
        _ => None,
    }
}

/// The whole trace and the whole book of the evening.
#[derive(Drop)]
struct Files {
    trace: Vec<u8>,
    book: Vec<u8>,
}

/// How many datagrams were said, and how many bytes the trace and the book have.
fn told_by<R: Clock + Copy + Drop>(
    mouths: &[BehindMouth<ListMouth, R>],
    traces: &[Shelf<ListBook>],
    books: &[Shelf<ListBook>],
    whole: &Files,
) -> Option<[usize; 3]> {
    Some([
        said(mouths.first()?.inner().list())?,
        kept(traces.first()?, &whole.trace)?,
        kept(books.first()?, &whole.book)?,
    ])
}

/// What comes back of an evening, and the same of its devices.
fn seen<R: Clock + Copy + Drop>(done: &Serve<R>, whole: &Files) -> (Back, Option<[usize; 3]>) {
    match (&done.house, &done.refused) {
        (Some(house), None) => {
            let told = told_by(&house.mouths, &house.traces, &house.books, whole);
            (Back::OfARun, told)
        }
        (None, Some(back)) => {
            let told = told_by(&back.mouths, &back.traces, &back.books, whole);
            (Back::Untouched, told)
        }
        _ => (Back::Nothing, Some([0; 3])),
    }
}

fn let_go<R: Copy + Drop>(_done: Serve<R>) {}

/// The book of the evening beside the faults of its ear: a record names the entry that it is of, in the last of the
/// eight bytes behind its first two. The sixteenth fault in a row is the end itself.
fn book_beside(rt: &impl Abort, alloc: Global, book: &[u8], failing: &[Failing]) -> Vec<u8> {
    let mut book = must(rt, book.to_vec(alloc));
    for call in calls(rt, alloc, failing, Device::Ear).iter().take(15) {
        for before in BOOK_BEFORE {
            match book.get_mut(before.saturating_add(9)) {
                Some(entry) if before != 0 && u64::from(*entry) >= *call => {
                    *entry = entry.wrapping_add(1);
                }
                _ => {}
            }
        }
    }
    book
}

/// Whether this comes of the evening, where the whole book of it is `book`.
fn comes<R: Threads + Wait + Clock + Abort + Copy + Drop + Send + 'static>(
    rt: &R,
    alloc: Global,
    failing: &[Failing],
    book: &[u8],
    wanted: Outcome,
) -> bool {
    let whole = Files {
        trace: trace_of(rt, alloc, failing),
        book: book_beside(rt, alloc, book, failing),
    };
    let (done, text) = served(rt, alloc, failing);
    let (status, (back, told)) = (done.status, seen(&done, &whole));
    let_go(done);
    status == wanted.status
        && text.as_slice() == wanted.text.as_bytes()
        && back == wanted.back
        && told == Some([wanted.said, wanted.trace, wanted.book])
}

/// The book of the evening.
fn sound_book<R: Threads + Wait + Clock + Abort + Copy + Drop + Send + 'static>(
    rt: &R,
    alloc: Global,
) -> Vec<u8> {
    let (done, _) = served(rt, alloc, &[]);
    let book = book_of(rt, alloc, &done);
    let_go(done);
    book
}

fn book_of<R: Copy>(rt: &impl Abort, alloc: Global, done: &Serve<R>) -> Vec<u8> {
    let house = done.house.as_ref().expect(rt, "a run");
    let shelf = house.books.first().expect(rt, "a shelf");
    let book = shelf.inner.as_ref().expect(rt, "a book");
    must(rt, book.bytes().to_vec(alloc))
}

/// Lets a device fail at each of its calls in turn, and at each two that follow each other; behind the last there is
/// none.
fn fail_in_turn<R: Threads + Wait + Clock + Abort + Copy + Drop + Send + 'static>(
    rt: &R,
    alloc: Global,
    book: &[u8],
    row: (&str, Device, usize),
) {
    let (name, device, calls) = row;
    for from in 0..calls {
        for count in 1..3 {
            let failing = [(device, from as u64, count as u64)];
            let wanted = wanted_of(device, from, count);
            assert!(rt;
                comes(rt, alloc, &failing, book, wanted),
                "{name} {from} {count}"
            );
        }
    }
    let failing = [(device, calls as u64, 1)];
    assert!(rt; comes(rt, alloc, &failing, book, SOUND), "{name}");
}

#[test]
fn each_device_fails_at_each_call_in_turn(rt: HostRuntime) {
    const LEGAL: &str = "legal 8 records 1 streams 4 admitted\n";
    let alloc = rt.alloc();
    let book = sound_book(&rt, alloc);
    let input = must(&rt, book.to_vec(alloc));
    let (status, said) = text_of(&rt, alloc, &["check"], input, 100);
    assert!(rt; status == 0 && said.as_slice() == LEGAL.as_bytes());
    for row in CALLS {
        fail_in_turn(&rt, alloc, &book, row);
    }
}

/// Several devices fail: the link is lost before anything is heard, or when all was, with the sixteenth fault in a row.
#[test]
fn the_statuses_come_in_their_order(rt: HostRuntime) {
    const EARLY: Failing = (Device::Ear, 0, 16);
    const LATE: Failing = (Device::Ear, 7, 16);
    const FILE: Failing = (Device::Book, 0, 1);
    const CREW: Failing = (Device::Crew, 0, 1);
    const PORTS: Failing = (Device::Ports, 1, 1);
    const SINK: Failing = (Device::Sink, 0, 1);
    const NO_FILE: Outcome = Outcome { book: 0, ..LOST };
    const NO_LINE: Outcome = Outcome {
        status: 4,
        text: "",
        ..UNTOUCHED
    };
    let rows: [(&[Failing], Outcome); 9] = [
        (&[(Device::Ear, 0, 15)], wanted_of(Device::Ear, 0, 15)),
        (&[EARLY], LOST),
        (&[LATE], LOST_LATE),
        (&[EARLY, FILE], NO_FILE),
        (&[EARLY, FILE, CREW], UNTOUCHED),
        (&[EARLY, FILE, CREW, PORTS], PORT_FAILED),
        (
            &[EARLY, FILE, SINK],
            Outcome {
                status: 4,
                text: "",
                ..NO_FILE
            },
        ),
        (&[CREW, SINK], NO_LINE),
        (
            &[PORTS, SINK],
            Outcome {
                back: Back::Nothing,
                ..NO_LINE
            },
        ),
    ];
    let book = sound_book(&rt, rt.alloc());
    for (failing, wanted) in rows {
        let status = wanted.status;
        assert!(rt; comes(&rt, rt.alloc(), failing, &book, wanted), "{status}");
    }
}
