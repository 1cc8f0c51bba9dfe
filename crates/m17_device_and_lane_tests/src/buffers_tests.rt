//! What the buffers do over devices in memory, at the sizes where they refill and hand on.
use crate::bench::must;
use m17_io::{Fault, Outlet, Sink, Source, read_tied};
use m17_streams::{
    BUFFER_BYTES, BufferedSink, BufferedSource, BytesOutlet, BytesSource, WaitingSource,
};
use m17_values::Failed;
use std::alloc::Global;
use std::process::Abort;

// Bytes that count up from 0 to 250, over and over: 251 divides no size here, so a piece lost or moved shows.
fn numbered(rt: &impl Abort, alloc: Global, len: usize) -> Vec<u8> {
    let mut bytes = must(rt, Vec::with_capacity(alloc, len));
    for i in 0..len {
        must(rt, bytes.push((i % 251) as u8));
    }
    bytes
}

fn buffered(
    rt: &impl Abort,
    alloc: Global,
    bytes: &[u8],
    fails: &[u64],
) -> BufferedSource<BytesSource> {
    let below = BytesSource::new(must(rt, bytes.to_vec(alloc)), must(rt, fails.to_vec(alloc)));
    must(rt, BufferedSource::make(alloc, below))
}

fn waiting(rt: &impl Abort, alloc: Global, fails: &[u64]) -> BufferedSource<WaitingSource> {
    let below = WaitingSource::new(
        must(rt, b"abc".to_vec(alloc)),
        must(rt, fails.to_vec(alloc)),
    );
    must(rt, BufferedSource::make(alloc, below))
}

// Reads to the end by this buffer, and hands back the bytes, and how many of them came before each failure.
fn read_all<S: Source>(
    rt: &impl Abort,
    alloc: Global,
    source: &mut S,
    buffer: &mut [u8],
) -> (Vec<u8>, Vec<usize>) {
    let mut bytes = Vec::new(alloc);
    let mut failures = Vec::new(alloc);
    for _ in 0..u64::MAX {
        match source.read(buffer) {
            Ok(0) => break,
            Ok(n) => must(
                rt,
                bytes.extend_from_slice(buffer.get(..n).expect(rt, "the bytes")),
            ),
            Err(Failed) => must(rt, failures.push(bytes.len())),
        }
    }
    (bytes, failures)
}

// Whether a read to the end by a buffer of this size gives the bytes, with one failure after the first refill.
fn are_read(rt: &impl Abort, alloc: Global, bytes: &[u8], size: usize) -> bool {
    let mut input = buffered(rt, alloc, bytes, &[1]);
    let mut buffer = must(rt, vec![in alloc; 0u8; size]);
    let (read, failures) = read_all(rt, alloc, &mut input, &mut buffer);
    read.as_slice() == bytes && failures.as_slice() == [BUFFER_BYTES].as_slice()
}

#[test]
fn every_byte_comes_once_and_in_order_past_a_failure(rt: HostRuntime) {
    let bytes = numbered(&rt, rt.alloc(), 2 * BUFFER_BYTES + 108);
    for size in [1, 64, 70_000] {
        assert!(rt; are_read(&rt, rt.alloc(), &bytes, size), "by {size}");
    }
}

#[test]
fn bytes_are_at_hand_while_they_are_in_the_buffer(rt: HostRuntime) {
    let mut input = waiting(&rt, rt.alloc(), &[]);
    assert!(rt; input.read(&mut []) == Ok(0));
    let mut one = [0u8; 1];
    for at_hand in [false, true, true, false] {
        assert!(rt; input.is_at_hand() == at_hand);
        let _ = input.read(&mut one);
    }
    assert!(rt; buffered(&rt, rt.alloc(), b"abc", &[]).is_at_hand());
}

// A sink above an outlet that takes 40,000 bytes at a time and fails at these calls.
fn sink(rt: &impl Abort, alloc: Global, fails: &[u64]) -> BufferedSink<BytesOutlet> {
    let below = BytesOutlet::new(alloc, 40_000, must(rt, fails.to_vec(alloc)));
    must(rt, BufferedSink::make(alloc, below))
}

// Whether these bytes, and no others, have left by now.
fn has_sent(out: &BufferedSink<BytesOutlet>, bytes: &[u8]) -> bool {
    out.outlet().bytes() == bytes
}

// Writes the bytes line by line, and compares how many have left after each line.
fn write_lines(rt: &impl Abort, out: &mut BufferedSink<BytesOutlet>, bytes: &[u8]) {
    for (i, line) in bytes.chunks(100).enumerate() {
        let written = out.write(line).is_ok();
        let gone = if i < 655 { 0 } else { 65_500 };
        assert!(rt;
            written && out.outlet().bytes().len() == gone,
            "after line {i}"
        );
    }
    let flushed = out.flush().is_ok();
    assert!(rt; flushed && has_sent(out, bytes));
}

// What is longer than the buffer, between two short texts: what each call answers.
fn write_long(out: &mut BufferedSink<BytesOutlet>, bytes: &[u8]) -> [bool; 4] {
    [
        out.write(b"before").is_ok(),
        out.write(bytes).is_ok(),
        out.write(b"after").is_ok(),
        out.flush().is_ok(),
    ]
}

// The buffer has room for 655 lines of 100 bytes, and not for the next. What is longer than it keeps its place.
#[test]
fn bytes_leave_at_a_full_buffer_and_at_a_flush(rt: HostRuntime) {
    let bytes = numbered(&rt, rt.alloc(), 70_000);
    let mut out = sink(&rt, rt.alloc(), &[]);
    write_lines(&rt, &mut out, &bytes);
    assert!(rt; write_long(&mut out, &bytes) == [true; 4]);
    let pieces: [&[u8]; 4] = [&bytes, b"before", &bytes, b"after"];
    assert!(rt; has_sent(&out, &must(&rt, pieces.concat(rt.alloc()))));
}

// Fails in the middle of a flush, and then in a write that has to wait for room: what each call answers, and how many
// bytes have left after the first failure.
fn fail_twice(out: &mut BufferedSink<BytesOutlet>, bytes: &[u8]) -> ([bool; 4], usize) {
    let (written, flushed) = (out.write(bytes).is_ok(), out.flush().is_ok());
    let gone = out.outlet().bytes().len();
    let (again, at_last) = (out.write(bytes).is_ok(), out.flush().is_ok());
    ([written, flushed, again, at_last], gone)
}

// The second call of the outlet fails: 40,000 bytes have left then, and the others are still held.
#[test]
fn a_failure_loses_no_byte_and_repeats_none(rt: HostRuntime) {
    let bytes = numbered(&rt, rt.alloc(), 60_000);
    let mut out = sink(&rt, rt.alloc(), &[1, 2]);
    assert!(rt; fail_twice(&mut out, &bytes) == ([true, false, false, true], 40_000));
    assert!(rt; has_sent(&out, &bytes));
}

// Reads two bytes at the most: whether this is the answer, and this has left then.
fn reads(
    input: &mut BufferedSource<WaitingSource>,
    out: &mut BufferedSink<BytesOutlet>,
    answer: Result<usize, Fault>,
    sent: &[u8],
) -> bool {
    let mut two = [0u8; 2];
    read_tied(input, out, &mut two) == answer && has_sent(out, sent)
}

#[test]
fn output_has_left_before_a_read_waits(rt: HostRuntime) {
    const THEN: [(Result<usize, Fault>, &[u8]); 4] = [
        // A byte is at hand: nothing waits, and nothing leaves.
        (Ok(1), b"first"),
        // The sink fails, then the source comes to its end, then the source fails.
        (Err(Fault::Write), b"first"),
        (Ok(0), b"firstsecond"),
        (Err(Fault::Read), b"firstsecond"),
    ];
    let mut input = waiting(&rt, rt.alloc(), &[2]);
    let mut out = sink(&rt, rt.alloc(), &[1]);
    assert!(rt; out.write(b"first").is_ok());
    assert!(rt; reads(&mut input, &mut out, Ok(2), b"first"));
    assert!(rt; out.write(b"second").is_ok());
    for (answer, sent) in THEN {
        assert!(rt; reads(&mut input, &mut out, answer, sent));
    }
}
