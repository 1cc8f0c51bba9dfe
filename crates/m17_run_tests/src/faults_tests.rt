//! Runs with an ear that fails now and then, and with a book or a trace that is torn in the middle of a write: what each
//! peer is told is the same, and the file keeps what was written before.

use crate::bench::{a_mouth, must, one_book, one_ear, plan};
use m17_crew::StdCrew;
use m17_port_memory::{FaultyEar, ListMouth, ScriptEar, TornBook};
use m17_reflect::{Returned, reflect};
use m17_samples::{frame, peer, said};
use m17_values::{Gram, Heard, Peer};
use std::alloc::Global;
use std::process::Abort;
use std::sync::Wait;
use std::thread::Threads;

fn packet(number: u16) -> [u8; 54] {
    m17_stream::write(&frame(0x1234, number, number == 3))
}

// AB1CD joins module A and talks; N0CALL comes to listen, and leaves before the last packet.
fn evening(rt: &impl Abort, alloc: Global) -> Vec<Heard> {
    let heard = [
        said(1, 0, b"CONN\x00\x00\x00\x9f\xdd\x51A"),
        said(1, 40, &packet(0)),
        said(2, 50, b"LSTN\x00\x00\x4b\x13\xd1\x06A"),
        said(1, 80, &packet(1)),
        said(1, 120, &packet(2)),
        said(2, 130, b"DISC\x00\x00\x4b\x13\xd1\x06"),
        said(1, 160, &packet(3)),
    ];
    must(rt, Vec::from_array(alloc, heard))
}

type Torn = (u64, usize);

type Ran = Returned<FaultyEar<ScriptEar>, ListMouth, TornBook>;

// Runs the evening, where these calls of the ear fail, and the trace and the book are torn at these calls.
fn run<R: Threads + Wait + Abort + Copy + Send + 'static>(
    rt: &R,
    alloc: Global,
    fails: &[u64],
    torn_trace: &[Torn],
    torn: &[Torn],
) -> Ran {
    let plan = plan(rt, "A", 4);
    let fails = must(rt, fails.to_vec(alloc));
    let ear = FaultyEar::new(ScriptEar::new(evening(rt, alloc)), fails);
    let ears = one_ear(rt, alloc, ear);
    let mouths = a_mouth(rt, alloc, 64);
    let torn_trace = must(rt, torn_trace.to_vec(alloc));
    let trace = must(rt, TornBook::make(alloc, 1_000, torn_trace));
    let torn = must(rt, torn.to_vec(alloc));
    let book = must(rt, TornBook::make(alloc, 1_000, torn));
    let traces = one_book(rt, alloc, trace);
    let books = one_book(rt, alloc, book);
    let modules = plan.modules.count();
    assert!(rt; books.len() == modules as usize);
    let mut crew = StdCrew::new();
    must(
        rt,
        reflect(rt, alloc, &plan, ears, mouths, traces, books, &mut crew),
    )
}

// Whether just these datagrams were said to this peer, in order.
fn were_said(list: &[(Peer, Gram)], to: u8, wanted: &[&[u8]]) -> bool {
    let mut rest = wanted.iter();
    for (to_whom, said) in list {
        if *to_whom == peer(to) && rest.next().copied() != Some(said.bytes()) {
            return false;
        }
    }
    rest.next().is_none()
}

// Whether the talker was told that it is in, and at the end that it is out, and the listener so too, with the two
// packets between.
fn were_told(list: &[(Peer, Gram)]) -> bool {
    let to_talker: [&[u8]; 2] = [b"ACKN", b"DISC\x00\x13\x89\xf9\xba\xed"];
    let (first, second) = (packet(1), packet(2));
    let to_listener: [&[u8]; 4] = [b"ACKN", &first, &second, b"DISC"];
    list.len() == 6 && were_said(list, 1, &to_talker) && were_said(list, 2, &to_listener)
}

// How many bytes the trace and the book have, where both peers were told all, the link was not lost, and each file holds
// the beginning of what it holds in the sound run, which is asked where no call of the ear fails; and whether one failed.
fn seen(ran: &Ran, sound: Option<&Ran>) -> Option<(usize, usize, bool)> {
    if ran.lost || !were_told(ran.mouths.first()?.list()) {
        return None;
    }
    let (trace, book) = (ran.traces.first()?.bytes(), ran.books.first()?.bytes());
    if let Some(sound) = sound {
        if !sound.traces.first()?.bytes().starts_with(trace)
            || !sound.books.first()?.bytes().starts_with(book)
        {
            return None;
        }
    }
    Some((trace.len(), book.len(), ran.book_failed))
}

fn let_go(_ran: Ran) {}

// Which calls of the ear fail; at which the trace and the book are torn, behind how many bytes; and then how many bytes
// the trace and the book have. Each fault is an entry of one byte, and a torn file is written no more.
type Row = (
    &'static [u64],
    &'static [Torn],
    &'static [Torn],
    usize,
    usize,
);

const ROWS: [Row; 26] = [
    (&[], &[], &[], 375, 541),
    (&[0], &[], &[], 376, 541),
    (&[1], &[], &[], 376, 541),
    (&[2], &[], &[], 376, 541),
    (&[3], &[], &[], 376, 541),
    (&[4], &[], &[], 376, 541),
    (&[5], &[], &[], 376, 541),
    (&[6], &[], &[], 376, 541),
    (&[7], &[], &[], 376, 541),
    (&[0, 2, 3, 9], &[], &[], 379, 541),
    (&[], &[], &[(0, 5)], 375, 5),
    (&[], &[], &[(1, 5)], 375, 22),
    (&[], &[], &[(2, 96)], 375, 150),
    // More entries for one call: the first holds.
    (&[], &[], &[(3, 1), (3, 2)], 375, 152),
    (&[], &[], &[(4, 0)], 375, 188),
    (&[], &[], &[(5, 50)], 375, 335),
    (&[], &[], &[(6, 7)], 375, 389),
    (&[], &[], &[(7, 96)], 375, 509),
    (&[], &[], &[(8, 30)], 375, 540),
    // More bytes than there are.
    (&[], &[], &[(8, 32)], 375, 541),
    (&[], &[(0, 3)], &[], 3, 541),
    (&[], &[(1, 0)], &[], 36, 541),
    (&[], &[(2, 28)], &[], 135, 541),
    (&[], &[(3, 70)], &[], 205, 541),
    (&[], &[(6, 30)], &[(7, 1)], 334, 414),
    (&[0, 1], &[], &[(1, 5), (2, 5)], 377, 22),
];

#[test]
fn what_is_told_is_the_same_where_an_ear_fails_or_a_file_is_torn(rt: HostRuntime) {
    let sound = run(&rt, rt.alloc(), &[], &[], &[]);
    for (fails, torn_trace, torn, trace, book) in ROWS {
        let ran = run(&rt, rt.alloc(), fails, torn_trace, torn);
        let seen = if fails.is_empty() {
            seen(&ran, Some(&sound))
        } else {
            seen(&ran, None)
        };
        let_go(ran);
        let failed = !torn_trace.is_empty() || !torn.is_empty();
        assert!(rt; seen == Some((trace, book, failed)), "{trace} {book}");
    }
    let_go(sound);
}
