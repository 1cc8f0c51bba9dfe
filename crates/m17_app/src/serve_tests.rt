//! `serve`, from its words to its status, over ports and devices in memory.
use crate::done::Done;
use crate::talk_tests::{came, peer};
use crate::tests::{must, run_over, sink_that};
use m17_crew::StdCrew;
use m17_port_memory::{ListBook, ListMouth, ScriptEar, ScriptPorts};
use m17_samples::frame;
use m17_stream::write;
use m17_streams::BytesSource;
use m17_values::{Gram, Heard, Peer};
use std::alloc::Global;
use std::process::Abort;
use std::sync::Wait;
use std::thread::Threads;
use std::time::Clock;

pub(crate) const SERVE: &[&str] = &[
    "serve",
    "--call",
    "M17-TST",
    "--modules",
    "A",
    "--places",
    "4",
    "x",
];

pub(crate) const BOOK: &[&str] = &[
    "serve",
    "--call",
    "M17-TST",
    "--modules",
    "A",
    "--places",
    "4",
    "--book=d",
    "x",
];

pub(crate) const JOIN: [u8; 11] = *b"CONN\x00\x00\x00\x9f\xdd\x51A";

pub(crate) const LISTEN: [u8; 11] = *b"LSTN\x00\x00\x4b\x13\xd1\x06A";

const LEAVE: [u8; 10] = *b"DISC\x00\x00\x4b\x13\xd1\x06";

// Ports with one link, whose ear hears this, and two books.
pub(crate) fn ports(rt: &impl Abort, alloc: Global, heard: Vec<Heard>) -> ScriptPorts {
    let mouth = must(rt, ListMouth::make(alloc, 16, Vec::new(alloc)));
    let trace = must(rt, ListBook::make(alloc, 500, Vec::new(alloc)));
    let book = must(rt, ListBook::make(alloc, 500, Vec::new(alloc)));
    let links = must(rt, Vec::from_array(alloc, [(ScriptEar::new(heard), mouth)]));
    let books = must(rt, Vec::from_array(alloc, [trace, book]));
    ScriptPorts::new(links, books, Vec::new(alloc))
}

pub(crate) type Serve<R> = Done<ScriptEar, ListMouth, ListBook, R>;

// Runs `serve` by these words: what it came to, and whether that has this status and this text.
pub(crate) fn served<R: Threads + Wait + Clock + Abort + Copy + Drop + Send + 'static>(
    rt: &R,
    alloc: Global,
    given: &[&str],
    heard: Vec<Heard>,
    wanted: (u8, &str),
) -> (Serve<R>, bool) {
    let (ports, mut crew) = (ports(rt, alloc, heard), StdCrew::new());
    let mut source = BytesSource::new(Vec::new(alloc), Vec::new(alloc));
    let mut sink = sink_that(rt, alloc, 100, &[]);
    let done = run_over(rt, alloc, given, ports, &mut crew, &mut source, &mut sink);
    let as_wanted = done.status == wanted.0 && sink.bytes() == wanted.1.as_bytes();
    (done, as_wanted)
}

pub(crate) fn let_go<R: Copy + Drop>(_done: Serve<R>) {}

pub(crate) fn packet(number: u16) -> [u8; 54] {
    write(&frame(0x1234, number, number == 3))
}

// AB1CD joins module A and talks; N0CALL comes to listen, and leaves before the last packet.
pub(crate) fn evening(rt: &impl Abort, alloc: Global) -> Vec<Heard> {
    let heard = [
        came(0, 1, &JOIN),
        came(40, 1, &packet(0)),
        came(50, 2, &LISTEN),
        came(80, 1, &packet(1)),
        came(120, 1, &packet(2)),
        came(130, 2, &LEAVE),
        came(160, 1, &packet(3)),
    ];
    must(rt, Vec::from_array(alloc, heard))
}

// Whether just these datagrams were said to this peer, in order.
fn were_said(list: &[(Peer, Gram)], to: u8, wanted: &[&[u8]]) -> bool {
    let mut rest = wanted.iter();
    for (to_whom, said) in list {
        if *to_whom == peer(to) && rest.next().copied() != Some(said.bytes()) {
            return false;
        }
    }
    rest.next().is_none()
}

/// Whether the one mouth that comes back said just these to the first peer and to the second, each in order.
pub(crate) fn were_told<R: Clock + Copy + Drop>(
    done: &Serve<R>,
    first: &[&[u8]],
    second: &[&[u8]],
) -> bool {
    let Some(house) = &done.house else {
        return false;
    };
    let [mouth] = house.mouths.as_slice() else {
        return false;
    };
    let list: &[(Peer, Gram)] = mouth.inner().list();
    list.len() == first.len() + second.len()
        && were_said(list, 1, first)
        && were_said(list, 2, second)
}

/// The reflector's farewell to who was silent, or is there at the end.
pub(crate) const DISC_OF_TST: &[u8] = b"DISC\x00\x13\x89\xf9\xba\xed";

// Each of the two is told in order; which of them is told first is left to the threads.
#[test]
fn an_evening_is_served_by_the_words_of_an_operator(rt: HostRuntime) {
    const GIVEN: [&str; 6] = ["serve", "--call", "M17-TST", "--modules", "A", "x"];
    let alloc = rt.alloc();
    let (first, second) = (packet(1), packet(2));
    let wanted = (0, "A admitted 4 missed 0\n");
    let (done, as_wanted) = served(&rt, alloc, &GIVEN, evening(&rt, alloc), wanted);
    let listener: [&[u8]; 4] = [b"ACKN", &first, &second, b"DISC"];
    let is_said = were_told(&done, &[b"ACKN", DISC_OF_TST], &listener);
    let_go(done);
    assert!(rt; as_wanted && is_said);
}

// AB1CD joins module A, and is silent for 30 s; then it asks whether the reflector is there. N0CALL listens, and says at
// 20 s that it is there.
fn silence(rt: &impl Abort, alloc: Global) -> Vec<Heard> {
    let heard = [
        came(0, 1, &JOIN),
        came(0, 2, &LISTEN),
        came(20_000, 2, b"PONG\x00\x00\x4b\x13\xd1\x06"),
        Heard::Quiet { at: 29_999 },
        Heard::Quiet { at: 30_000 },
        came(30_000, 1, b"PING\x00\x00\x00\x9f\xdd\x51"),
        Heard::Quiet { at: 33_000 },
    ];
    must(rt, Vec::from_array(alloc, heard))
}

// Both are asked whether they are there, at each entry that passes a multiple of 3 s. The silent one is in at 29,999 ms,
// is told to go at 30,000, and from then on is neither answered nor asked. The other one answered once, and stays until
// the end.
#[test]
fn a_silent_peer_is_asked_and_after_30_s_told_to_go(rt: HostRuntime) {
    const ACKN: &[u8] = b"ACKN";
    const PING: &[u8] = b"PING\x00\x13\x89\xf9\xba\xed";
    const SILENT: [&[u8]; 5] = [ACKN, PING, PING, PING, DISC_OF_TST];
    const OTHER: [&[u8]; 6] = [ACKN, PING, PING, PING, PING, DISC_OF_TST];
    let alloc = rt.alloc();
    let wanted = (0, "A admitted 0 missed 0\n");
    let (done, as_wanted) = served(&rt, alloc, SERVE, silence(&rt, alloc), wanted);
    let is_said = were_told(&done, &SILENT, &OTHER);
    let_go(done);
    assert!(rt; as_wanted && is_said);
}
