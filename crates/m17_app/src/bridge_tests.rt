//! `bridge`, from its words to its status, over ports and devices in memory.
use crate::done::Done;
use crate::talk_tests::{came, faults};
use crate::tests::{must, run_over, sink_that};
use m17_crew::StdCrew;
use m17_port_memory::{ListBook, ListMouth, ScriptEar, ScriptPorts};
use m17_samples::frame;
use m17_stream::write;
use m17_streams::BytesSource;
use m17_values::{Gram, Heard, Peer};
use std::alloc::Global;
use std::process::Abort;
use std::sync::Wait;
use std::thread::Threads;
use std::time::Clock;

pub(crate) const BRIDGE: &[&str] = &[
    "bridge",
    "--call",
    "AB1CD",
    "--near",
    "x",
    "--near-peer",
    "10.0.0.9:17000",
    "--near-module",
    "A",
    "--far",
    "y",
    "--far-peer",
    "10.0.0.7:17000",
    "--far-module",
    "A",
];

// The numbers of the reflectors' addresses.
const NEAR: u8 = 9;

const FAR: u8 = 7;

// What the ear of a side hears.
#[derive(Clone, Copy)]
enum Ear {
    // The client asks and is acknowledged, and two packets of stream 1234 come, of which the second may be the last.
    Talks(bool),
    // It asks and is acknowledged, and a packet of stream 0005 comes, after quiet.
    Answers,
    // It is refused.
    Refused,
    // A packet of another peer comes, and a fault; then it is acknowledged, and another peer lets it go.
    Others,
    // Fifteen faults, a quiet moment, and sixteen more.
    Parted,
    // So many quiet moments.
    Quiet(usize),
    // So many faults.
    Faults(usize),
}

fn quiet(rt: &impl Abort, alloc: Global, count: usize) -> Vec<Heard> {
    let mut heard = Vec::new(alloc);
    for _quiet in 0..count {
        must(rt, heard.push(Heard::Quiet { at: 0 }));
    }
    heard
}

fn heard_by(rt: &impl Abort, alloc: Global, number: u8, ear: Ear) -> Vec<Heard> {
    let start = Heard::Quiet { at: 0 };
    let greeted = came(10, number, b"ACKN");
    match ear {
        Ear::Talks(last) => {
            let first = came(40, number, &write(&frame(0x1234, 0, false)));
            let second = came(80, number, &write(&frame(0x1234, 1, last)));
            must(rt, Vec::from_array(alloc, [start, greeted, first, second]))
        }
        Ear::Answers => {
            let later = Heard::Quiet { at: 40 };
            let frame = came(45, number, &write(&frame(5, 0, false)));
            must(rt, Vec::from_array(alloc, [start, greeted, later, frame]))
        }
        Ear::Refused => must(
            rt,
            Vec::from_array(alloc, [start, came(10, number, b"NACK")]),
        ),
        Ear::Others => {
            let first = came(0, 5, &write(&frame(5, 0, false)));
            let heard = [
                first,
                Heard::Fault,
                came(70, number, b"ACKN"),
                came(80, 5, b"DISC"),
            ];
            must(rt, Vec::from_array(alloc, heard))
        }
        Ear::Parted => {
            let mut heard = faults(rt, alloc, 32);
            if let Some(one) = heard.get_mut(15) {
                *one = Heard::Quiet { at: 0 };
            }
            heard
        }
        Ear::Quiet(count) => quiet(rt, alloc, count),
        Ear::Faults(count) => faults(rt, alloc, count),
    }
}

// A link whose ear hears this, and whose mouth fails at these calls.
fn link(
    rt: &impl Abort,
    alloc: Global,
    number: u8,
    ear: Ear,
    fails: &[u64],
) -> (ScriptEar, ListMouth) {
    let fails = must(rt, fails.to_vec(alloc));
    let mouth = must(rt, ListMouth::make(alloc, 8, fails));
    (ScriptEar::new(heard_by(rt, alloc, number, ear)), mouth)
}

// A datagram of the tests.
#[derive(Clone, Copy)]
enum Word {
    Conn,
    Disc,
    Frame(u16, u16, bool),
}

fn is_word(said: &(Peer, Gram), word: Word) -> bool {
    match word {
        Word::Conn => said.1.bytes() == b"CONN\x00\x00\x00\x9f\xdd\x51A".as_slice(),
        Word::Disc => said.1.bytes() == b"DISC\x00\x00\x00\x9f\xdd\x51".as_slice(),
        Word::Frame(sid, number, last) => {
            said.1.bytes() == write(&frame(sid, number, last)).as_slice()
        }
    }
}

// Whether a mouth said these to the reflector of this number, and nothing else.
fn has_said(mouth: &ListMouth, number: u8, words: &[Word]) -> bool {
    let said = mouth.list();
    said.len() == words.len()
        && said.iter().zip(words.iter()).all(|(said, word)| said.0.ip[3] == number
            && is_word(said, *word))
}

// What is to come back of a bridge.
#[derive(Clone, Copy)]
enum Back {
    // Nothing.
    Nothing,
    // The devices of both sides.
    Devices,
    // The same, and near and far these were said.
    Said(&'static [Word], &'static [Word]),
}

type Bridge<R> = Done<ScriptEar, ListMouth, ListBook, R>;

fn has_back<R: Copy>(done: &Bridge<R>, back: Back) -> bool {
    if done.talk.is_some() || done.house.is_some() || done.refused.is_some() {
        return false;
    }
    let Some((near, far)) = &done.bridge else {
        return matches!(back, Back::Nothing);
    };
    match back {
        Back::Nothing => false,
        Back::Devices => true,
        Back::Said(near_words, far_words) => {
            has_said(&near.1, NEAR, near_words) && has_said(&far.1, FAR, far_words)
        }
    }
}

// What the near ear hears and what the far one; which calls of the ports, of the far mouth and of the sink fail; and then
// the status, the text, and what comes back.
type Row = (Ear, Ear, [&'static [u64]; 3], u8, &'static str, Back);

// Runs `bridge` by a row: what it came to, and whether that has the status and the text of the row. The source fails
// where it is read.
fn bridged<R: Threads + Wait + Clock + Abort + Copy + Drop + Send + 'static>(
    rt: &R,
    alloc: Global,
    row: &Row,
) -> (Bridge<R>, bool) {
    let (near, far, [fails, mouth_fails, sink_fails], status, text, _) = *row;
    let near = link(rt, alloc, NEAR, near, &[]);
    let far = link(rt, alloc, FAR, far, mouth_fails);
    let links = must(rt, Vec::from_array(alloc, [near, far]));
    let ports = ScriptPorts::new(links, Vec::new(alloc), must(rt, fails.to_vec(alloc)));
    let mut source = BytesSource::new(Vec::new(alloc), must(rt, Vec::from_array(alloc, [0])));
    let mut sink = sink_that(rt, alloc, 100, sink_fails);
    let mut crew = StdCrew::new();
    let done = run_over(rt, alloc, BRIDGE, ports, &mut crew, &mut source, &mut sink);
    let as_wanted = done.status == status && sink.bytes() == text.as_bytes();
    (done, as_wanted)
}

fn let_go<R: Copy + Drop>(_done: Bridge<R>) {}

const NO_FAILS: [&[u64]; 3] = [&[], &[], &[]];

const ONE_LOST: [&[u64]; 3] = [&[], &[1], &[]];

const NEAR_PORT: [&[u64]; 3] = [&[0], &[], &[]];

const FAR_PORT: [&[u64]; 3] = [&[1], &[], &[]];

const AT_THE_LINE: [&[u64]; 3] = [&[], &[], &[0]];

const AT_THE_LAST: [&[u64]; 3] = [&[], &[], &[1]];

const AT_THE_FLUSH: [&[u64]; 3] = [&[], &[], &[2]];

const PORT_AND_SINK: [&[u64]; 3] = [&[1], &[], &[0]];

const CROSSED: &[Word] = &[
    Word::Conn,
    Word::Frame(0x1234, 0, false),
    Word::Frame(0x1234, 1, true),
    Word::Disc,
];

const OPEN: &[Word] = &[
    Word::Conn,
    Word::Frame(0x1234, 0, false),
    Word::Frame(0x1234, 1, false),
    Word::Disc,
];

const SHORT: &[Word] = &[Word::Conn, Word::Frame(0x1234, 1, true), Word::Disc];

const ANSWERED: &[Word] = &[Word::Conn, Word::Frame(5, 0, false), Word::Disc];

const ASKED: &[Word] = &[Word::Conn, Word::Disc];

const LATE: &[Word] = &[Word::Conn, Word::Frame(0x1234, 1, false), Word::Disc];

const LATE_LINE: &str = "bridged near 1 far 0\n";

const BOTH: &str = "bridged near 2 far 1\n";

const ONE: &str = "bridged near 2 far 0\n";

const NONE: &str = "bridged near 0 far 0\n";

const LOST: &str = "bridged near 0 far 0\nlink lost\n";

const FAILED: &str = "port failed\n";

const TALKS: Ear = Ear::Talks(true);

// What a side says is said on the other. A near stream without its end bit leaves the way to near. A datagram that a mouth
// fails to send is lost, though it has passed. Other peers and faults step nothing: until the far client is let in nothing
// passes to it. The bridge ends with a side. Either link may be refused, and the sink may fail
// at the line, at the last line, and where it is to hand on all.
const ROWS: [Row; 16] = [
    (
        TALKS,
        Ear::Answers,
        NO_FAILS,
        0,
        BOTH,
        Back::Said(ANSWERED, CROSSED),
    ),
    (
        Ear::Talks(false),
        Ear::Answers,
        NO_FAILS,
        0,
        ONE,
        Back::Said(ASKED, OPEN),
    ),
    (
        TALKS,
        Ear::Answers,
        ONE_LOST,
        0,
        BOTH,
        Back::Said(ANSWERED, SHORT),
    ),
    (
        Ear::Talks(false),
        Ear::Others,
        NO_FAILS,
        0,
        LATE_LINE,
        Back::Said(ASKED, LATE),
    ),
    (
        Ear::Quiet(40),
        Ear::Parted,
        NO_FAILS,
        7,
        LOST,
        Back::Said(ASKED, ASKED),
    ),
    (
        Ear::Faults(16),
        Ear::Quiet(16),
        NO_FAILS,
        7,
        LOST,
        Back::Devices,
    ),
    (
        Ear::Quiet(16),
        Ear::Faults(16),
        NO_FAILS,
        7,
        LOST,
        Back::Devices,
    ),
    (
        Ear::Faults(15),
        Ear::Quiet(16),
        NO_FAILS,
        0,
        NONE,
        Back::Devices,
    ),
    (
        Ear::Quiet(16),
        Ear::Refused,
        NO_FAILS,
        0,
        NONE,
        Back::Devices,
    ),
    (
        Ear::Quiet(0),
        Ear::Quiet(0),
        NO_FAILS,
        0,
        NONE,
        Back::Said(&[], &[]),
    ),
    (TALKS, Ear::Answers, NEAR_PORT, 5, FAILED, Back::Nothing),
    (TALKS, Ear::Answers, FAR_PORT, 5, FAILED, Back::Nothing),
    (TALKS, Ear::Answers, AT_THE_LINE, 4, "", Back::Devices),
    (TALKS, Ear::Answers, AT_THE_LAST, 4, BOTH, Back::Devices),
    (TALKS, Ear::Answers, AT_THE_FLUSH, 4, BOTH, Back::Devices),
    (TALKS, Ear::Answers, PORT_AND_SINK, 4, "", Back::Nothing),
];

#[test]
fn a_bridge_has_its_status_and_its_line(rt: HostRuntime) {
    for (i, row) in ROWS.iter().enumerate() {
        let (done, as_wanted) = bridged(&rt, rt.alloc(), row);
        let has_back = has_back(&done, row.5);
        let_go(done);
        assert!(rt; as_wanted && has_back, "row {i}");
    }
}
