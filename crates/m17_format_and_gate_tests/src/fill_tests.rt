use crate::bench::must;
use m17_decorators::Filling;
use m17_port_memory::ScriptEar;
use m17_ports::Ear;
use m17_samples::{frame, peer};
use m17_values::{Gram, Heard};
use std::alloc::Global;
use std::process::Abort;

/// A stream packet whose CRC is 0: frame 5 of stream 1234 hex.
fn unfilled() -> [u8; 54] {
    let mut bytes = m17_stream::write(&frame(0x1234, 5, false));
    bytes[52] = 0;
    bytes[53] = 0;
    bytes
}

/// What an ear hears that fills in CRCs, or doesn't, when these bytes come.
fn heard<R: Abort>(rt: &R, alloc: Global, fills: bool, bytes: &[u8]) -> Option<Gram> {
    let came = Heard::Datagram {
        from: peer(1),
        at: 7,
        bytes: Gram::of(bytes),
    };
    let script = must(rt, Vec::from_array(alloc, [came]));
    let mut ear = Filling::with(ScriptEar::new(script), fills);
    let told = ear.hear();
    let _ear = ear.into_inner();
    match told {
        Heard::Datagram { from, at, bytes } if from == peer(1) && at == 7 => Some(bytes),
        _ => None,
    }
}

#[test]
fn only_zeros_are_filled_in(rt: HostRuntime) {
    let good = m17_stream::write(&frame(0x1234, 5, false));
    let zeros = unfilled();
    let mut wrong = unfilled();
    wrong[53] = 1;
    let mut other = unfilled();
    other[3] = b'_';
    let mut long = [0; 55];
    long[..54].copy_from_slice(&zeros);
    for (came, wanted) in [
        (zeros.as_slice(), good.as_slice()),
        (good.as_slice(), good.as_slice()),
        (wrong.as_slice(), wrong.as_slice()),
        (other.as_slice(), other.as_slice()),
        (long.as_slice(), long.as_slice()),
        (&zeros[..53], &zeros[..53]),
        (b"", b""),
    ] {
        assert!(rt; heard(&rt, rt.alloc(), true, came) == Some(Gram::of(wanted)));
        assert!(rt; heard(&rt, rt.alloc(), false, came) == Some(Gram::of(came)));
    }
}
