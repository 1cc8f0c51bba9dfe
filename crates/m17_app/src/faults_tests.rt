//! The source and the sink of each command fail at each of their calls in turn: the status, and how much of what the
//! command writes stands before.
use crate::rules_tests::RULED;
use crate::serve_tests::SERVE;
use crate::talk_tests::TALK;
use crate::tests::{Piece, Row, expect, input_of, must, sink_that, status_over};
use m17_crew::StdCrew;
use m17_port_memory::{ListMouth, ScriptEar, ScriptPorts};
use m17_streams::BytesSource;
use std::alloc::Global;
use std::process::Abort;
use std::sync::Wait;
use std::thread::Threads;
use std::time::Clock;

/// A command, its input, and the status and the text that it comes to where nothing fails; and then how many bytes of
/// that text stand before `read failed` where call 0, 1 and so on of the source fails, and how many are written where
/// call 0, 1 and so on of the sink does. There are no calls behind these.
type Turns = (
    &'static [&'static str],
    &'static [Piece],
    (u8, &'static str),
    &'static [usize],
    &'static [usize],
);

/// Ports with one link, which ends at once.
fn ports(rt: &impl Abort, alloc: Global) -> ScriptPorts {
    let ear = ScriptEar::new(Vec::new(alloc));
    let mouth = must(rt, ListMouth::make(alloc, 8, Vec::new(alloc)));
    let links = must(rt, Vec::from_array(alloc, [(ear, mouth)]));
    ScriptPorts::new(links, Vec::new(alloc), Vec::new(alloc))
}

/// The first so many bytes.
fn first(bytes: &[u8], count: usize) -> &[u8] {
    if count < bytes.len() {
        &bytes[..count]
    } else {
        bytes
    }
}

/// Whether the text is the first so many bytes of `whole`, and then these.
fn is_text(text: &[u8], whole: &str, count: usize, then: &str) -> bool {
    text.len() == count.saturating_add(then.len())
        && text.starts_with(first(whole.as_bytes(), count))
        && text.ends_with(then.as_bytes())
}

/// Runs the command where this call of the source fails, and this one of the sink: whether it ends with this status,
/// the first so many bytes of its text, and these.
fn ends<R: Threads + Wait + Clock + Abort + Copy + Drop + Send + 'static>(
    rt: &R,
    alloc: Global,
    row: &Turns,
    fails: (u64, u64),
    status: u8,
    part: (usize, &str),
) -> bool {
    let (given, input, (_, whole), _, _) = *row;
    let reads = must(rt, Vec::from_array(alloc, [fails.0]));
    let mut source = BytesSource::new(input_of(rt, alloc, input), reads);
    let mut sink = sink_that(rt, alloc, 4096, &[fails.1]);
    let (ports, mut crew) = (ports(rt, alloc), StdCrew::new());
    let ended = status_over(rt, alloc, given, ports, &mut crew, &mut source, &mut sink);
    ended == status && is_text(sink.bytes(), whole, part.0, part.1)
}

/// A call that is never made.
const NEVER: u64 = 1_000;

/// Lets each device fail at each of its calls in turn.
fn fail_in_turn<R: Threads + Wait + Clock + Abort + Copy + Drop + Send + 'static>(
    rt: &R,
    alloc: Global,
    row: &Turns,
) {
    let (given, _, (status, text), reads, writes) = *row;
    let name = given.first().copied().unwrap_or("");
    for (call, count) in reads.iter().enumerate() {
        let part = (*count, "read failed\n");
        let ended = ends(rt, alloc, row, (call as u64, NEVER), 3, part);
        assert!(rt; ended, "{name}: read {call}");
    }
    for (call, count) in writes.iter().enumerate() {
        let ended = ends(rt, alloc, row, (NEVER, call as u64), 4, (*count, ""));
        assert!(rt; ended, "{name}: write {call}");
    }
    let none = (reads.len() as u64, writes.len() as u64);
    let ended = ends(rt, alloc, row, none, status, (text.len(), ""));
    assert!(rt; ended, "{name}: no call");
}

const JUDGE: &[&str] = &["judge"];

const TWO_TALKERS: &[Piece] = &[
    Piece::Spoken(0, 3, 1, 0, false),
    Piece::Spoken(0, 4, 2, 0, false),
];

/// What a book of module A begins with, whose limit on talking is 180,000 milliseconds.
const BOOK: Piece = Piece::Bytes(b"M17BOOK2A\0\0\0\0\0\x02\xbf\x20");

const EMPTY: &[Piece] = &[BOOK];

const EMPTY_LINE: &str = "legal 0 records 0 streams 0 admitted\n";

/// `AB1CD` joins at place 0 with generation 0, at moment 0.
const JOIN: Piece = Piece::Bytes(
    b"\x01\0\0\0\0\0\0\0\0\0\0\0\0\0\0\0\0\0\0\0\0\0\0\0\0\0\0\0\0\0\0\0\0\0\x9f\xdd\x51",
);

/// The same twice.
const HELD: &[Piece] = &[BOOK, JOIN, JOIN];

/// The trace of `make 0 2`.
const MADE: &str = "M17TRACE\
    \x01\0\0\0\0\0\0\0\0\x04\x0a\0\0\x01\x42\x68\x0bCONN\0\0\0\x01\x79\x60A\
    \x01\0\0\0\0\0\0\0\0\x04\x0a\0\0\x02\x42\x68\x0bCONN\0\0\0\x02\x73\x60B";

const SHOWN: &[Piece] = &[
    Piece::Text("434F4E4E0000009FDD5141\n44495343\n"),
    Piece::Text("41434B4E"),
];

const ONE_JOINS: &[Piece] = &[Piece::Text(MADE)];

const LEAVES: &[Piece] = &[Piece::Bytes(&[0; 8]), Piece::Frame(0x1234, 0, false)];

const SAID: &str = "0 opened\n1 busy 3\n";

const JOINED: &str = "0 A join\n1 B join\n";

const NOTHING_CAME: &str = "A admitted 0 missed 0\n";

/// A book of version 1 in which one joins, and the same in version 2.
const OLD_BOOK: &[Piece] = &[Piece::Text(
    "M17BOOK1A\
    \x01\0\0\0\0\0\0\0\0\0\0\0\0\0\0\0\0\0\0\0\0\0\0\0\0\0\0\0\0\0\0\0\0\0\x01\x79\x60",
)];

const NEW_BOOK: &str = "M17BOOK2A\0\0\0\0\0\0\0\0\
    \x01\0\0\0\0\0\0\0\0\0\0\0\0\0\0\0\0\0\0\0\0\0\0\0\0\0\0\0\0\0\0\0\0\0\x01\x79\x60";

const REFUSED: &str = "words refused\n";

const REPLAY: &[&str] = &["replay"];

const SUMMARY: &[&str] = &["replay", "--summary"];

const PAGE: &str =
    "entries 2\njoin 2\nagain 0\nleave 0\npong 0\nalive 0\nopened 0\ncontinued 0\nbusy 0\nrepeat 0\n\
late 0\nafter-end 0\ntimed-out 0\nnot-member 0\nlisten-only 0\nrefused 0\nnot-connected 0\nnot-served 0\nfull 0\n\
stray 0\nquiet 0\nfault 0\npeer 10.0.0.1:17000 ackn 1 nack 0 ping 0 pong 0 disc 1 frame 0\n\
peer 10.0.0.2:17000 ackn 1 nack 0 ping 0 pong 0 disc 1 frame 0\n";

const PAGE_WRITES: &[usize] = &[
    0, 0, 10, 17, 25, 33, 40, 48, 57, 69, 76, 85, 92, 104, 116, 129, 143, 153, 169, 182, 189, 197,
    205, 213, 276, 339, 339,
];

/// `check` and `replay` hand on what was held back before they read, which is call 0 of their sink. The last two calls
/// write the last line, which is empty where there is none, and hand on what was written. Of a source that has less than
/// a buffer they read once more for the header and for each record or entry.
const TURNS: [Turns; 7] = [
    (JUDGE, TWO_TALKERS, (0, SAID), &[0, 9, 18], &[0, 9, 18, 18]),
    (
        &["show"],
        SHOWN,
        (0, "conn AB1CD A\ndisc\nackn\n"),
        &[0, 18],
        &[0, 13, 18, 23, 23],
    ),
    (
        &["check"],
        EMPTY,
        (0, EMPTY_LINE),
        &[0, 0, 0],
        &[0, 0, 37, 37],
    ),
    (
        &["check"],
        HELD,
        (1, "input refused at 1: member\n"),
        &[0; 5],
        &[0, 0, 27],
    ),
    (
        &["migrate"],
        OLD_BOOK,
        (0, NEW_BOOK),
        &[0, 0, 0, 0],
        &[0, 0, 17, 54, 54],
    ),
    (
        &["make", "0", "2"],
        &[],
        (0, MADE),
        &[],
        &[0, 8, 36, 64, 64],
    ),
    (&["help"], &[], (2, REFUSED), &[], &[0, 14]),
];

/// The same of the commands that hear entries.
const HEARING: [Turns; 8] = [
    (REPLAY, ONE_JOINS, (0, JOINED), &[0; 5], &[0, 0, 9, 18, 18]),
    (SUMMARY, ONE_JOINS, (0, PAGE), &[0; 5], PAGE_WRITES),
    (
        &["replay", "--threads"],
        ONE_JOINS,
        (0, JOINED),
        &[0; 5],
        &[0, 0, 9, 18, 18],
    ),
    (
        &["replay", "--threads", "--summary"],
        ONE_JOINS,
        (0, PAGE),
        &[0; 5],
        PAGE_WRITES,
    ),
    (
        REPLAY,
        &[],
        (1, "input refused at 0: cut\n"),
        &[0],
        &[0, 0, 24],
    ),
    (TALK, LEAVES, (0, "ended kept 0\n"), &[0, 0], &[0, 13, 13]),
    (SERVE, &[], (0, NOTHING_CAME), &[], &[0, 22, 22]),
    (
        RULED,
        &[Piece::Text("allow any * *")],
        (0, NOTHING_CAME),
        &[0, 0],
        &[0, 22, 22],
    ),
];

#[test]
fn the_source_and_the_sink_fail_at_each_call_in_turn(rt: HostRuntime) {
    for row in TURNS {
        fail_in_turn(&rt, rt.alloc(), &row);
    }
}

#[test]
fn so_they_do_of_each_command_that_hears(rt: HostRuntime) {
    for row in HEARING {
        fail_in_turn(&rt, rt.alloc(), &row);
    }
}

/// The sink fails where another status is to be told.
#[test]
fn a_failed_sink_comes_in_place_of_all_others(rt: HostRuntime) {
    const ONE: &str = "0 opened\n";
    const BOTH: &str = "0 opened\nread failed\n";
    const FAULTS: &[Piece] = &[Piece::Header, Piece::Faults(16)];
    const ROWS: [Row; 6] = [
        (JUDGE, TWO_TALKERS, &[1], &[0], 4, ""),
        (JUDGE, TWO_TALKERS, &[1], &[1], 4, ONE),
        (JUDGE, TWO_TALKERS, &[1], &[2], 4, BOTH),
        (REPLAY, FAULTS, &[0], &[1], 4, ""),
        // The ports have nothing to hand out.
        (SERVE, &[], &[], &[0], 4, ""),
        (SERVE, &[], &[], &[1], 4, "port failed\n"),
    ];
    expect(&rt, rt.alloc(), &ROWS);
}
