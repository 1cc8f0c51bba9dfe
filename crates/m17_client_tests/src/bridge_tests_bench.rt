//! What the clients of the tests say and hear.
ghost use Rattle.std.specs.Prelude.{◌≡◌, Ok};
ghost use Rattle.m17_client.specs.StandsFor.{MayCross};

use m17_callsign::CallAddress;
use m17_client::{Client, Side};
use m17_control::ModuleLetter;
use m17_samples::{ab1cd, frame, peer};
use m17_stream::write;
use m17_values::{Gram, Heard, Peer};
use std::process::Abort;

/// `CONN` of AB1CD to module A, and the 10-byte `DISC`, `PING` and `PONG` of AB1CD.
const CONN: [u8; 11] = [0x43, 0x4F, 0x4E, 0x4E, 0, 0, 0, 0x9F, 0xDD, 0x51, 0x41];

const PART: [u8; 10] = [0x44, 0x49, 0x53, 0x43, 0, 0, 0, 0x9F, 0xDD, 0x51];

const PING: [u8; 10] = [0x50, 0x49, 0x4E, 0x47, 0, 0, 0, 0x9F, 0xDD, 0x51];

const PONG: [u8; 10] = [0x50, 0x4F, 0x4E, 0x47, 0, 0, 0, 0x9F, 0xDD, 0x51];

/// A datagram of the tests: a reply of a reflector, a control packet of AB1CD, or a voice frame of
/// this stream, with this number, which may be the last.
#[derive(Clone, Copy)]
pub(crate) enum Word {
    Ackn,
    Disc,
    Conn,
    Part,
    Ping,
    Pong,
    Frame(u16, u16, bool),
}

/// Its bytes.
pub(crate) fn spell(word: Word) -> Gram {
    match word {
        Word::Ackn => Gram::of(b"ACKN"),
        Word::Disc => Gram::of(b"DISC"),
        Word::Conn => Gram::of(&CONN),
        Word::Part => Gram::of(&PART),
        Word::Ping => Gram::of(&PING),
        Word::Pong => Gram::of(&PONG),
        Word::Frame(sid, number, last) => Gram::of(&write(&frame(sid, number, last))),
    }
}

/// An idle client AB1CD that asks for module A.
pub(crate) fn client(rt: &impl Abort) -> Client
    ensures { MayCross result }
{
    let call = CallAddress::new(ab1cd()).expect(rt, "a callsign");
    let module = ModuleLetter::new(b'A').expect(rt, "a module");
    Client::new(call, module, false)
}

/// What was made; the test ends where it was not.
pub(crate) fn must<T, E: Drop, R: Abort>(rt: &R, made: Result<T, E>) -> T
    ensures { made ≡ Ok result }
{
    made.ok().expect(rt, "made")
}

/// The reflector of a side: 10.0.0.9:17000 or 10.0.0.7:17000.
pub(crate) fn reflector(side: Side) -> Peer {
    match side {
        Side::Near => peer(9),
        Side::Far => peer(7),
    }
}

/// What an ear of the tests says at a moment: a datagram of the reflector of its side, or no datagram; or that nothing more
/// comes.
#[derive(Clone, Copy)]
pub(crate) enum Entry {
    Hears(u64, Word),
    Quiet(u64),
    End,
}

/// The same as the ear of a side says it.
pub(crate) fn said_by_ear(side: Side, entry: Entry) -> Heard {
    match entry {
        Entry::Hears(at, word) => Heard::Datagram {
            from: reflector(side),
            at,
            bytes: spell(word),
        },
        Entry::Quiet(at) => Heard::Quiet { at },
        Entry::End => Heard::End,
    }
}
