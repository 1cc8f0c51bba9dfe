//! What the tests of the program share: runs over devices in memory. What a run is given and what comes of it is data;
//! `expect` runs the program by it. What the commands say of their inputs is in `conformance/`, and not here.
use crate::done::Done;
use crate::run::run;
use m17_crew::{Crew, RefusingCrew, StdCrew};
use m17_port_memory::ScriptPorts;
use m17_ports::{Book, Ear, Ports};
use m17_samples::frame;
use m17_stream::write;
use m17_streams::{BytesSink, BytesSource};
use std::alloc::Global;
use std::hash::RandomState;
use std::io;
use std::process::Abort;
use std::random::RandomSource;
use std::sync::Wait;
use std::thread::Threads;
use std::time::Clock;

/// What was made; the test ends where it was not.
pub(crate) fn must<T, E: Drop>(rt: &impl Abort, made: Result<T, E>) -> T {
    made.ok().expect(rt, "made")
}

/// A source of numbers that are drawn, which are all 0.
struct Zeros;

impl RandomSource for Zeros {
    fn fill_bytes(&self, _buf: &mut [u8]) -> io::Result<()> {
        Ok(())
    }
}

/// Keys of guards, the same at each run.
pub(crate) fn keys(rt: &impl Abort) -> RandomState {
    must(rt, RandomState::new(&Zeros))
}

/// A piece of an input.
#[derive(Clone, Copy)]
pub(crate) enum Piece {
    /// These bytes.
    Bytes(&'static [u8]),
    /// This text.
    Text(&'static str),
    /// A record of `judge`: its moment, its talker, and the stream id, number and end bit of its packet.
    Spoken(u64, u16, u16, u16, bool),
    /// A stream packet alone: its stream id, number and end bit.
    Frame(u16, u16, bool),
    /// What a trace begins with.
    Header,
    /// So many faults.
    Faults(usize),
}

/// What a run is given, its words, its input, and which calls of the source and of the sink fail, and what comes of it:
/// its status and what it wrote.
pub(crate) type Row = (
    &'static [&'static str],
    &'static [Piece],
    &'static [u64],
    &'static [u64],
    u8,
    &'static str,
);

fn extend(rt: &impl Abort, input: &mut Vec<u8>, bytes: &[u8]) {
    must(rt, input.extend_from_slice(bytes));
}

fn push_piece(rt: &impl Abort, input: &mut Vec<u8>, piece: Piece) {
    match piece {
        Piece::Bytes(bytes) => extend(rt, input, bytes),
        Piece::Text(text) => extend(rt, input, text.as_bytes()),
        Piece::Spoken(at, talker, sid, number, last) => {
            extend(rt, input, &at.to_be_bytes());
            extend(rt, input, &talker.to_be_bytes());
            extend(rt, input, &write(&frame(sid, number, last)));
        }
        Piece::Frame(sid, number, last) => {
            extend(rt, input, &write(&frame(sid, number, last)));
        }
        Piece::Header => extend(rt, input, b"M17TRACE"),
        Piece::Faults(count) => {
            for _fault in 0..count {
                extend(rt, input, &[0x03]);
            }
        }
    }
}

/// The input of these pieces.
pub(crate) fn input_of(rt: &impl Abort, alloc: Global, pieces: &[Piece]) -> Vec<u8> {
    let mut input = Vec::new(alloc);
    for piece in pieces {
        push_piece(rt, &mut input, *piece);
    }
    input
}

/// The words of a command line.
pub(crate) fn words(rt: &impl Abort, alloc: Global, given: &[&str]) -> Vec<String> {
    let mut words = Vec::new(alloc);
    for word in given {
        must(rt, words.push(must(rt, String::from_str(alloc, word))));
    }
    words
}

/// A sink with room for so many bytes, that fails at these calls.
pub(crate) fn sink_that(rt: &impl Abort, alloc: Global, room: usize, fails: &[u64]) -> BytesSink {
    must(
        rt,
        BytesSink::make(alloc, room, must(rt, fails.to_vec(alloc))),
    )
}

/// Runs the program by these words over these devices and this crew.
pub(crate) fn run_over<
    P: Ports + Drop,
    C: Crew,
    R: Threads + Wait + Clock + Abort + Copy + Drop + Send + 'static,
>(
    rt: &R,
    alloc: Global,
    given: &[&str],
    ports: P,
    crew: &mut C,
    source: &mut BytesSource,
    sink: &mut BytesSink,
) -> Done<P::Ear, P::Mouth, P::Book, R>
where
    <P::Ear as Ear>::Label: 'static,
    <P::Book as Book>::Label: 'static,
{
    let words = words(rt, alloc, given);
    run(rt, alloc, keys(rt), &words, ports, crew, source, sink).0
}

/// The same where its status alone counts.
pub(crate) fn status_over<
    P: Ports + Drop,
    C: Crew,
    R: Threads + Wait + Clock + Abort + Copy + Drop + Send + 'static,
>(
    rt: &R,
    alloc: Global,
    given: &[&str],
    ports: P,
    crew: &mut C,
    source: &mut BytesSource,
    sink: &mut BytesSink,
) -> u8
where
    <P::Ear as Ear>::Label: 'static,
    <P::Book as Book>::Label: 'static,
{
    run_over(rt, alloc, given, ports, crew, source, sink).status
}

/// Ports of which nothing is had.
pub(crate) fn no_ports(alloc: Global) -> ScriptPorts {
    ScriptPorts::new(Vec::new(alloc), Vec::new(alloc), Vec::new(alloc))
}

/// The status and the text of the program that these words and this input come to; no device fails.
pub(crate) fn text_of<R: Threads + Wait + Clock + Abort + Copy + Drop + Send + 'static>(
    rt: &R,
    alloc: Global,
    given: &[&str],
    input: Vec<u8>,
    room: usize,
) -> (u8, Vec<u8>) {
    let mut source = BytesSource::new(input, Vec::new(alloc));
    let mut sink = sink_that(rt, alloc, room, &[]);
    let (ports, mut crew) = (no_ports(alloc), StdCrew::new());
    let status = status_over(rt, alloc, given, ports, &mut crew, &mut source, &mut sink);
    (status, must(rt, sink.bytes().to_vec(alloc)))
}

// Runs the program over such devices by this crew, and demands what comes of it.
fn expect_by<C: Crew, R: Threads + Wait + Clock + Abort + Copy + Drop + Send + 'static>(
    rt: &R,
    alloc: Global,
    row: &Row,
    crew: &mut C,
) {
    let (given, input, reads, writes, wanted, text) = *row;
    let reads = must(rt, reads.to_vec(alloc));
    let mut source = BytesSource::new(input_of(rt, alloc, input), reads);
    let mut sink = sink_that(rt, alloc, 4096, writes);
    let ports = no_ports(alloc);
    let status = status_over(rt, alloc, given, ports, crew, &mut source, &mut sink);
    assert!(rt;
        status == wanted && sink.bytes() == text.as_bytes(),
        "{status} {text}"
    );
}

/// Runs the program by each of these rows, and demands what comes of it.
pub(crate) fn expect<R: Threads + Wait + Clock + Abort + Copy + Drop + Send + 'static>(
    rt: &R,
    alloc: Global,
    rows: &[Row],
) {
    for row in rows {
        expect_by(rt, alloc, row, &mut StdCrew::new());
    }
}

// A crew that refuses a start, of the link's job, the modules' or the sender's: nothing of the trace is told. Without a
// trace the crew is not asked.
#[test]
fn a_refused_start_is_told(rt: HostRuntime) {
    const REPLAY: &[&str] = &["replay", "--threads"];
    const TOLD: Row = (
        REPLAY,
        &[Piece::Header, Piece::Faults(1)],
        &[],
        &[],
        6,
        "crew refused\n",
    );
    const UNASKED: Row = (
        REPLAY,
        &[Piece::Bytes(b"M17")],
        &[],
        &[],
        1,
        "input refused at 3: cut\n",
    );
    for start in 0..5 {
        for row in [TOLD, UNASKED] {
            let starts = must(&rt, Vec::from_array(rt.alloc(), [start]));
            expect_by(&rt, rt.alloc(), &row, &mut RefusingCrew::new(starts));
        }
    }
}
