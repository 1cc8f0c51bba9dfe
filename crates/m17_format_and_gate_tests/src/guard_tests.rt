use crate::bench::must;
use m17_decorators::Guarded;
use m17_port_memory::ScriptEar;
use m17_ports::Ear;
use m17_samples::peer;
use m17_values::{Gram, Heard};
use std::alloc::Global;
use std::hash::RandomState;
use std::process::Abort;

/// A datagram: the last byte of its peer, its moment, the low byte of its stream's id, or none of a
/// DISC, and a byte behind that; and whether it is heard.
type Step = (u8, u64, Option<u8>, u8, bool);

/// What is heard, entry by entry.
const STEPS: [Step; 19] = [
    (1, 0, Some(1), 7, true),
    // what a peer repeats with nothing between
    (1, 10, Some(1), 7, true),
    (1, 20, Some(2), 7, true),
    // an echo, and one of an echo
    (1, 30, Some(1), 7, false),
    (1, 40, Some(2), 7, false),
    (1, 50, Some(1), 7, false),
    // another frame, and another peer
    (1, 60, Some(1), 8, true),
    (2, 70, Some(1), 7, true),
    (2, 80, Some(2), 8, true),
    // an echo within one stream
    (3, 90, Some(5), 1, true),
    (3, 91, Some(5), 2, true),
    (3, 92, Some(5), 1, false),
    // after ten seconds
    (2, 10_070, Some(1), 7, false),
    (2, 20_071, Some(2), 8, true),
    (2, 20_072, Some(1), 7, true),
    (1, 20_073, Some(3), 1, true),
    (1, 20_074, Some(4), 1, true),
    // after a DISC
    (1, 20_075, None, 0, true),
    (1, 20_076, Some(3), 1, true),
];

/// The bytes of a step.
fn bytes_of(stream: Option<u8>, frame: u8) -> Gram {
    let mut bytes = [0; 54];
    bytes[..4].copy_from_slice(b"M17 ");
    match stream {
        Some(id) => {
            bytes[5] = id;
            bytes[40] = frame;
            Gram::of(&bytes)
        }
        None => Gram::of(b"DISC"),
    }
}

#[test]
fn echoes_are_not_heard(rt: HostRuntime) {
    let alloc = rt.alloc();
    let mut script = Vec::new(alloc);
    for (last, at, stream, frame, _) in &STEPS {
        let heard = Heard::Datagram {
            from: peer(*last),
            at: *at,
            bytes: bytes_of(*stream, *frame),
        };
        must(&rt, script.push(heard));
    }
    let keys = must(&rt, RandomState::new(&rt));
    let mut ear = must(&rt, Guarded::make(alloc, ScriptEar::new(script), keys));
    for (last, at, stream, frame, is_heard) in &STEPS {
        let wanted = if *is_heard {
            Heard::Datagram {
                from: peer(*last),
                at: *at,
                bytes: bytes_of(*stream, *frame),
            }
        } else {
            Heard::Quiet { at: *at }
        };
        assert!(rt; ear.hear() == wanted);
    }
    assert!(rt; ear.hear() == Heard::End);
}
