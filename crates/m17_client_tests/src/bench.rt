//! What a client of the tests says and hears.
ghost use Rattle.std.specs.Prelude.{◌≡◌, Ok};

use m17_callsign::CallAddress;
use m17_control::ModuleLetter;
use m17_port_memory::{ListBook, ListMouth, ScriptEar};
use m17_samples::{ab1cd, frame, peer};
use m17_stream::write;
use m17_values::{Gram, Heard, Peer};
use std::alloc::Global;
use std::process::Abort;

/// `CONN` of AB1CD to module A, `LSTN` of the same, and the 10-byte `DISC`, `PING` and `PONG` of AB1CD.
const CONN: [u8; 11] = [0x43, 0x4F, 0x4E, 0x4E, 0, 0, 0, 0x9F, 0xDD, 0x51, 0x41];

const LSTN: [u8; 11] = [0x4C, 0x53, 0x54, 0x4E, 0, 0, 0, 0x9F, 0xDD, 0x51, 0x41];

const PART: [u8; 10] = [0x44, 0x49, 0x53, 0x43, 0, 0, 0, 0x9F, 0xDD, 0x51];

const PING: [u8; 10] = [0x50, 0x49, 0x4E, 0x47, 0, 0, 0, 0x9F, 0xDD, 0x51];

const PONG: [u8; 10] = [0x50, 0x4F, 0x4E, 0x47, 0, 0, 0, 0x9F, 0xDD, 0x51];

/// A datagram of the tests: a reply of the reflector, a control packet of AB1CD, or a voice frame of this stream, with
/// this number, which may be the last.
#[derive(Clone, Copy)]
pub(crate) enum Word {
    Ackn,
    Nack,
    Disc,
    Pink,
    Conn,
    Lstn,
    Part,
    Ping,
    Pong,
    Frame(u16, u16, bool),
}

/// Its bytes.
pub(crate) fn spell(word: Word) -> Gram {
    match word {
        Word::Ackn => Gram::of(b"ACKN"),
        Word::Nack => Gram::of(b"NACK"),
        Word::Disc => Gram::of(b"DISC"),
        Word::Pink => Gram::of(b"PINK"),
        Word::Conn => Gram::of(&CONN),
        Word::Lstn => Gram::of(&LSTN),
        Word::Part => Gram::of(&PART),
        Word::Ping => Gram::of(&PING),
        Word::Pong => Gram::of(&PONG),
        Word::Frame(sid, number, last) => Gram::of(&write(&frame(sid, number, last))),
    }
}

/// What was made; the test ends where it was not.
pub(crate) fn must<T, E: Drop, R: Abort>(rt: &R, made: Result<T, E>) -> T
    ensures { made ≡ Ok result }
{
    made.ok().expect(rt, "made")
}

/// The callsign AB1CD.
pub(crate) fn callsign(rt: &impl Abort) -> CallAddress {
    CallAddress::new(ab1cd()).expect(rt, "a callsign")
}

/// Module A.
pub(crate) fn module_a(rt: &impl Abort) -> ModuleLetter {
    ModuleLetter::new(b'A').expect(rt, "a module")
}

/// The reflector, 10.0.0.9:17000.
pub(crate) fn reflector() -> Peer {
    peer(9)
}

/// What an ear of the tests says at a moment: a datagram of the reflector or of another peer, or no datagram; or that it
/// failed, or that nothing more comes.
#[derive(Clone, Copy)]
pub(crate) enum Entry {
    Hears(u64, Word),
    Other(u64, Word),
    Quiet(u64),
    Fault,
    End,
}

/// The same as the ear says it.
pub(crate) fn said_by_ear(entry: Entry) -> Heard {
    match entry {
        Entry::Hears(at, word) => Heard::Datagram {
            from: reflector(),
            at,
            bytes: spell(word),
        },
        Entry::Other(at, word) => Heard::Datagram {
            from: peer(8),
            at,
            bytes: spell(word),
        },
        Entry::Quiet(at) => Heard::Quiet { at },
        Entry::Fault => Heard::Fault,
        Entry::End => Heard::End,
    }
}

/// Whether an ear said this.
pub(crate) fn is(heard: Heard, entry: Entry) -> bool {
    heard == said_by_ear(entry)
}

/// An ear that says these, and then that nothing more comes.
pub(crate) fn ear<R: Abort>(rt: &R, alloc: Global, entries: &[Entry]) -> ScriptEar {
    let mut heard = Vec::new(alloc);
    for entry in entries {
        must(rt, heard.push(said_by_ear(*entry)));
    }
    ScriptEar::new(heard)
}

/// The calls that fail of a device that fails at this one, if at any.
pub(crate) fn fails<R: Abort>(rt: &R, alloc: Global, call: Option<u64>) -> Vec<u64> {
    let mut fails = Vec::new(alloc);
    if let Some(call) = call {
        must(rt, fails.push(call));
    }
    fails
}

/// A mouth with room for 32 datagrams, which fails at this call.
pub(crate) fn mouth<R: Abort>(rt: &R, alloc: Global, call: Option<u64>) -> ListMouth {
    must(rt, ListMouth::make(alloc, 32, fails(rt, alloc, call)))
}

/// A book with room for 1,000 bytes, which fails at this call.
pub(crate) fn book<R: Abort>(rt: &R, alloc: Global, call: Option<u64>) -> ListBook {
    must(rt, ListBook::make(alloc, 1_000, fails(rt, alloc, call)))
}

/// Whether a mouth said these datagrams, each to the reflector, and no other.
pub(crate) fn is_said(mouth: &ListMouth, wanted: &[Word]) -> bool {
    let list = mouth.list();
    for ((to, bytes), word) in list.iter().zip(wanted) {
        if *to != reflector() || *bytes != spell(*word) {
            return false;
        }
    }
    list.len() == wanted.len()
}
