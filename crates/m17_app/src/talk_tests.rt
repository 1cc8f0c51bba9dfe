//! `talk`, from its words and its script to its status, over ports and devices in memory.
use crate::done::Done;
use crate::tests::{must, run_over, sink_that};
use m17_crew::StdCrew;
use m17_port_memory::{ListBook, ListMouth, ScriptEar, ScriptPorts};
use m17_samples::frame;
use m17_stream::write;
use m17_streams::BytesSource;
use m17_values::{Gram, Heard, Peer};
use std::alloc::Global;
use std::process::Abort;
use std::sync::Wait;
use std::thread::Threads;
use std::time::Clock;

pub(crate) const TALK: &[&str] = &[
    "talk",
    "--call",
    "AB1CD",
    "--module",
    "A",
    "--bind",
    "x",
    "--to",
    "10.0.0.9:17000",
];

const BOOK: &[&str] = &[
    "talk",
    "--call",
    "AB1CD",
    "--module",
    "A",
    "--bind",
    "x",
    "--to",
    "10.0.0.9:17000",
    "--book=evening",
];

/// A peer of the tests, by the last number of its address 10.0.0.0.
pub(crate) fn peer(number: u8) -> Peer {
    let mut ip = [0; 16];
    ip[0] = 10;
    ip[3] = number;
    Peer {
        six: false,
        ip,
        port: 17_000,
    }
}

/// These bytes came from this peer at this moment.
pub(crate) fn came(at: u64, number: u8, bytes: &[u8]) -> Heard {
    Heard::Datagram {
        from: peer(number),
        at,
        bytes: Gram::of(bytes),
    }
}

/// So many faults.
pub(crate) fn faults(rt: &impl Abort, alloc: Global, count: usize) -> Vec<Heard> {
    let mut heard = Vec::new(alloc);
    for _fault in 0..count {
        must(rt, heard.push(Heard::Fault));
    }
    heard
}

/// A script of these moments, with frames of stream 1234 (hex) that are numbered from 0.
fn script(rt: &impl Abort, alloc: Global, moments: &[u64]) -> Vec<u8> {
    let mut bytes = Vec::new(alloc);
    let mut number = 0u16;
    for at in moments {
        must(rt, bytes.extend_from_slice(&at.to_be_bytes()));
        must(
            rt,
            bytes.extend_from_slice(&write(&frame(0x1234, number, false))),
        );
        number = number.wrapping_add(1);
    }
    bytes
}

// What an ear hears behind a quiet moment at 0.
#[derive(Clone, Copy)]
enum Ear {
    // The client is acknowledged, hears a frame, and is told to go. A packet that is due 20 ms after it became connected
    // goes out before.
    Evening,
    // It is acknowledged, and told to go.
    Short,
    // It is acknowledged, and hears two frames of another talker before it is told to go; a third comes of another peer.
    Talker,
    // This answer, and then only the time.
    Answers(&'static [u8], u64),
    // Nothing for five seconds.
    Unanswered,
    // Nothing.
    Quiet,
    // Nothing but so many faults, without the moment at 0.
    Faults(usize),
}

fn time(at: u64) -> Heard {
    Heard::Quiet { at }
}

fn voice(at: u64, number: u8, frame_number: u16, last: bool) -> Heard {
    came(at, number, &write(&frame(7, frame_number, last)))
}

fn talker(rt: &impl Abort, alloc: Global) -> Vec<Heard> {
    let heard = [
        time(0),
        came(10, 9, b"ACKN"),
        voice(20, 9, 1, false),
        voice(30, 8, 2, false),
        voice(40, 9, 3, true),
        came(60, 9, b"PONG"),
        came(70, 9, b"DISC"),
    ];
    must(rt, Vec::from_array(alloc, heard))
}

fn evening(rt: &impl Abort, alloc: Global) -> Vec<Heard> {
    let heard = [
        time(0),
        came(10, 9, b"ACKN"),
        voice(15, 9, 1, false),
        came(40, 9, b"PONG"),
        came(50, 9, b"DISC"),
    ];
    must(rt, Vec::from_array(alloc, heard))
}

fn heard_by(rt: &impl Abort, alloc: Global, ear: Ear) -> Vec<Heard> {
    match ear {
        Ear::Evening => evening(rt, alloc),
        Ear::Short => {
            let heard = [time(0), came(10, 9, b"ACKN"), came(20, 9, b"DISC")];
            must(rt, Vec::from_array(alloc, heard))
        }
        Ear::Talker => talker(rt, alloc),
        Ear::Answers(bytes, at) => {
            must(
                rt,
                Vec::from_array(alloc, [time(0), came(1, 9, bytes), time(at)]),
            )
        }
        Ear::Unanswered => {
            let heard = [0, 1_000, 2_000, 3_000, 4_000, 5_000].map(time);
            must(rt, Vec::from_array(alloc, heard))
        }
        Ear::Quiet => must(rt, Vec::from_array(alloc, [time(0)])),
        Ear::Faults(count) => faults(rt, alloc, count),
    }
}

// A datagram that a client says.
#[derive(Clone, Copy)]
enum Word {
    Conn,
    Lstn,
    Packet,
    Disc,
}

use Word::{Conn, Disc, Lstn, Packet};

fn is_word(said: &[u8], word: Word) -> bool {
    match word {
        Conn => said == b"CONN\x00\x00\x00\x9f\xdd\x51A".as_slice(),
        Lstn => said == b"LSTN\x00\x00\x00\x9f\xdd\x51A".as_slice(),
        Packet => said == write(&frame(0x1234, 0, false)).as_slice(),
        Disc => said == b"DISC\x00\x00\x00\x9f\xdd\x51".as_slice(),
    }
}

// What is to come back of a talk.
#[derive(Clone, Copy)]
enum Back {
    // Nothing.
    Nothing,
    // The devices.
    Devices,
    // The devices, without a book, and these were said.
    Said(&'static [Word]),
    // The devices, with a book of so many bytes.
    Kept(usize),
}

type Talk<R> = Done<ScriptEar, ListMouth, ListBook, R>;

// Whether just these were said.
fn are_said(list: &[(Peer, Gram)], words: &[Word]) -> bool {
    list.len() == words.len()
        && list
            .iter()
            .zip(words.iter())
            .all(|(said, word)| is_word(said.1.bytes(), *word))
}

// Whether the book is of so many bytes.
fn is_of(book: &Option<ListBook>, size: usize) -> bool {
    match book {
        Some(book) => book.bytes().len() == size,
        None => false,
    }
}

// Whether this came back.
fn has_back<R: Copy>(done: &Talk<R>, back: Back) -> bool {
    let Some((_, mouth, shelf)) = &done.talk else {
        return matches!(back, Back::Nothing);
    };
    match back {
        Back::Nothing => false,
        Back::Devices => true,
        Back::Said(words) => shelf.inner.is_none() && are_said(mouth.list(), words),
        Back::Kept(size) => is_of(&shelf.inner, size),
    }
}

// The words, what the ear hears, the moments of the script, and which calls of the ports, the mouth, the book and the sink
// fail; and then the status, the text, and what comes back.
#[derive(Clone, Copy)]
struct Row {
    given: &'static [&'static str],
    ear: Ear,
    moments: &'static [u64],
    ports: &'static [u64],
    mouth: &'static [u64],
    book: &'static [u64],
    sink: &'static [u64],
    status: u8,
    text: &'static str,
    back: Back,
}

// Ports with a link whose ear hears this, and a book.
fn ports(rt: &impl Abort, alloc: Global, row: &Row) -> ScriptPorts {
    let fails = must(rt, row.mouth.to_vec(alloc));
    let mouth = must(rt, ListMouth::make(alloc, 8, fails));
    let fails = must(rt, row.book.to_vec(alloc));
    let book = must(rt, ListBook::make(alloc, 200, fails));
    let ear = ScriptEar::new(heard_by(rt, alloc, row.ear));
    let links = must(rt, Vec::from_array(alloc, [(ear, mouth)]));
    let books = must(rt, Vec::from_array(alloc, [book]));
    ScriptPorts::new(links, books, must(rt, row.ports.to_vec(alloc)))
}

// Runs `talk` by a row: what it came to, and whether that has the status and the text of the row.
fn talked<R: Threads + Wait + Clock + Abort + Copy + Drop + Send + 'static>(
    rt: &R,
    alloc: Global,
    row: &Row,
) -> (Talk<R>, bool) {
    let ports = ports(rt, alloc, row);
    let mut source = BytesSource::new(script(rt, alloc, row.moments), Vec::new(alloc));
    let (mut sink, mut crew) = (sink_that(rt, alloc, 100, row.sink), StdCrew::new());
    let done = run_over(
        rt,
        alloc,
        row.given,
        ports,
        &mut crew,
        &mut source,
        &mut sink,
    );
    let as_wanted = done.status == row.status && sink.bytes() == row.text.as_bytes();
    (done, as_wanted)
}

fn let_go<R: Copy + Drop>(_done: Talk<R>) {}

// A talk of one packet that comes to its end.
const PLAIN: Row = Row {
    given: TALK,
    ear: Ear::Short,
    moments: &[0],
    ports: &[],
    mouth: &[],
    book: &[],
    sink: &[],
    status: 0,
    text: "closed asked kept 0\n",
    back: Back::Said(&[Conn, Packet, Disc]),
};

// Of a client that hears as well. Where a book is named it keeps a record of 64 bytes.
const EVENING: Row = Row {
    ear: Ear::Evening,
    moments: &[20],
    text: "closed asked kept 1\n",
    back: Back::Devices,
    ..PLAIN
};

const KEEPS: Row = Row {
    given: BOOK,
    back: Back::Kept(64),
    ..EVENING
};

// Of one that hears two frames of another.
const TALKER: Row = Row {
    given: BOOK,
    ear: Ear::Talker,
    moments: &[50],
    status: 8,
    text: "closed asked kept 2\nbook failed\n",
    ..PLAIN
};

// Of one that is answered otherwise, before its packet is due.
const ANSWERED: Row = Row {
    moments: &[100_000],
    back: Back::Devices,
    ..PLAIN
};

const REFUSED: Row = Row {
    given: BOOK,
    ear: Ear::Evening,
    status: 5,
    text: "port failed\n",
    back: Back::Nothing,
    ..PLAIN
};

const LISTENS: &[&str] = &[
    "talk",
    "--call",
    "AB1CD",
    "--module",
    "A",
    "--bind",
    "x",
    "--to",
    "10.0.0.9:17000",
    "--listen",
];

// A talk comes to its end, or its ear ends first; a listener says no packet; no book is asked for where none is named.
const TALKS: [Row; 4] = [
    PLAIN,
    Row {
        ear: Ear::Quiet,
        text: "ended kept 0\n",
        back: Back::Said(&[Conn]),
        ..PLAIN
    },
    Row {
        given: LISTENS,
        moments: &[0, 0],
        back: Back::Said(&[Lstn, Disc]),
        ..PLAIN
    },
    Row {
        ports: &[1],
        ..PLAIN
    },
];

// Why a client is closed stands in its line.
const ENDINGS: [Row; 6] = [
    Row {
        ear: Ear::Answers(b"NACK", 2),
        text: "closed refused kept 0\n",
        ..ANSWERED
    },
    Row {
        ear: Ear::Answers(b"DISC", 2),
        text: "closed dropped kept 0\n",
        ..ANSWERED
    },
    Row {
        ear: Ear::Answers(b"ACKN", 30_001),
        text: "closed lost kept 0\n",
        ..ANSWERED
    },
    Row {
        ear: Ear::Unanswered,
        text: "closed no-answer kept 0\n",
        ..ANSWERED
    },
    Row {
        ear: Ear::Faults(15),
        text: "ended kept 0\n",
        ..ANSWERED
    },
    Row {
        ear: Ear::Faults(16),
        status: 7,
        text: "ended kept 0\nlink lost\n",
        ..ANSWERED
    },
];

// Each of the mouth's three calls loses its datagram alone. A book keeps what was heard until it fails. The ports may
// fail, and the sink at the line, at the last line, and where it is to hand on all; and the moments of the script may fall.
const FAILURES: [Row; 12] = [
    Row {
        mouth: &[0],
        back: Back::Said(&[Packet, Disc]),
        ..PLAIN
    },
    Row {
        mouth: &[1],
        back: Back::Said(&[Conn, Disc]),
        ..PLAIN
    },
    Row {
        mouth: &[2],
        back: Back::Said(&[Conn, Packet]),
        ..PLAIN
    },
    KEEPS,
    Row {
        book: &[0],
        back: Back::Kept(0),
        ..TALKER
    },
    Row {
        book: &[1],
        back: Back::Kept(64),
        ..TALKER
    },
    Row {
        ports: &[0],
        ..REFUSED
    },
    Row {
        ports: &[1],
        ..REFUSED
    },
    Row {
        sink: &[0],
        status: 4,
        text: "",
        ..EVENING
    },
    Row {
        sink: &[1],
        status: 4,
        ..EVENING
    },
    Row {
        sink: &[2],
        status: 4,
        ..EVENING
    },
    Row {
        moments: &[5, 4],
        status: 1,
        text: "input refused at 62: field\n",
        ..REFUSED
    },
];

// Runs `talk` by each of these rows.
fn demand<R: Threads + Wait + Clock + Abort + Copy + Drop + Send + 'static>(
    rt: &R,
    alloc: Global,
    rows: &[Row],
) {
    for (i, row) in rows.iter().enumerate() {
        let (done, as_wanted) = talked(rt, alloc, row);
        let has_back = has_back(&done, row.back);
        let_go(done);
        assert!(rt; as_wanted && has_back, "row {i}");
    }
}

#[test]
fn a_talk_has_its_status_and_its_line(rt: HostRuntime) {
    demand(&rt, rt.alloc(), &TALKS);
}

#[test]
fn why_a_client_is_closed_stands_in_its_line(rt: HostRuntime) {
    demand(&rt, rt.alloc(), &ENDINGS);
}

#[test]
fn what_fails_in_a_talk_is_told(rt: HostRuntime) {
    demand(&rt, rt.alloc(), &FAILURES);
}
