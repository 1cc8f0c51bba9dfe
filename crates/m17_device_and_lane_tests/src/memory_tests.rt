use crate::bench::must;
use m17_io::{Fault, Outlet, Sink, Source, read_tied};
use m17_streams::{BytesOutlet, BytesSink, BytesSource, WaitingSource};
use m17_values::Failed;
use std::alloc::Global;
use std::process::Abort;

fn source(rt: &impl Abort, alloc: Global, bytes: &[u8], fails: &[u64]) -> BytesSource {
    let bytes = must(rt, bytes.to_vec(alloc));
    BytesSource::new(bytes, must(rt, fails.to_vec(alloc)))
}

fn sink(rt: &impl Abort, alloc: Global, room: usize, fails: &[u64]) -> BytesSink {
    must(
        rt,
        BytesSink::make(alloc, room, must(rt, fails.to_vec(alloc))),
    )
}

#[test]
fn bytes_come_in_order_and_listed_calls_fail(rt: HostRuntime) {
    let mut source = source(&rt, rt.alloc(), b"abcde", &[1, 3]);
    let mut into = [0u8; 3];
    let first = source.read(&mut into);
    assert!(rt; first == Ok(3) && into == *b"abc");
    let then = [
        source.read(&mut into),
        source.read(&mut into),
        source.read(&mut into),
        source.read(&mut into),
    ];
    assert!(rt; then == [Err(Failed), Ok(2), Err(Failed), Ok(0)]);
    assert!(rt; into == *b"dec" && source.is_at_hand());
}

#[test]
fn a_sink_keeps_what_fits_and_fails_where_it_was_told(rt: HostRuntime) {
    let mut out = sink(&rt, rt.alloc(), 5, &[1, 4]);
    let answers = [
        out.write(b"abc"),
        out.write(b"d"),
        out.write(b"def"),
        out.write(b"de"),
        out.flush(),
        out.flush(),
    ];
    let (ok, failed) = (Ok(()), Err(Failed));
    assert!(rt;
        answers == [ok, failed, failed, ok, failed, ok] && out.bytes() == b"abcde".as_slice()
    );
    let mut none = sink(&rt, rt.alloc(), 0, &[]);
    assert!(rt; [none.write(b""), none.write(b"a")] == [ok, failed]);
}

#[test]
fn an_outlet_takes_a_few_bytes_at_a_time(rt: HostRuntime) {
    let fails = must(&rt, [1].to_vec(rt.alloc()));
    let mut outlet = BytesOutlet::new(rt.alloc(), 3, fails);
    let answers = [
        outlet.send(b"abcde"),
        outlet.send(b"de"),
        outlet.send(b"de"),
        outlet.send(b""),
    ];
    assert!(rt;
        answers == [Ok(3), Err(Failed), Ok(2), Ok(0)] && outlet.bytes() == b"abcde".as_slice()
    );
}

// The sink's second flush fails, and the source's second read: the first of these comes first.
#[test]
fn a_tied_read_says_which_device_failed(rt: HostRuntime) {
    let bytes = must(&rt, b"abc".to_vec(rt.alloc()));
    let mut source = WaitingSource::new(bytes, must(&rt, [1].to_vec(rt.alloc())));
    let mut sink = sink(&rt, rt.alloc(), 9, &[1]);
    let mut into = [0u8; 2];
    let answers = [
        read_tied(&mut source, &mut sink, &mut into),
        read_tied(&mut source, &mut sink, &mut into),
        read_tied(&mut source, &mut sink, &mut into),
        read_tied(&mut source, &mut sink, &mut into),
    ];
    assert!(rt; answers == [Ok(2), Err(Fault::Write), Err(Fault::Read), Ok(1)]);
    assert!(rt; into == *b"cb" && !source.is_at_hand() && Fault::Read != Fault::Write);
}
