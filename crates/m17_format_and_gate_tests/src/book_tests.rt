//! The bytes of records and entries, and the records that a reader gives.
ghost use Rattle.m17_book.specs.Records.{IsWritable, IsLowVerdict};

use crate::bench::{BOOK, must, source};
use m17_book::{
    FormRefusal, Head, Reader, Record, read_record, write_entry, write_header, write_record,
    write_trace_header,
};
use m17_callsign::{CallAddress, encode};
use m17_control::{ModuleLetter, Tag, Why};
use m17_floor::Verdict;
use m17_stream::StreamPacket;
use m17_values::{Gram, Heard, Member, Peer};
use std::alloc::Global;
use std::process::Abort;

const TAG: Tag = Tag { link: 1, index: 5 };

const MEMBER: Member = Member {
    place: 2,
    generation: 1,
};

const BUSY: Verdict = Verdict::Busy {
    holder: Member {
        place: 3,
        generation: 9,
    },
};

const LATE: Verdict = Verdict::Late { last: 513 };

/// Frame 5 of stream 1234 hex, to everyone, from 9FDD51 hex.
const STREAM: &[u8; 54] = b"M17 \x12\x34\xff\xff\xff\xff\xff\xff\x00\x00\x00\x9f\xdd\x51\x00\x05\
\x00\x00\x00\x00\x00\x00\x00\x00\x00\x00\x00\x00\x00\x00\x00\x05\
\x00\x00\x00\x00\x00\x00\x00\x00\x00\x00\x00\x00\x00\x00\x00\x00\x39\xe5";

fn stream(rt: &impl Abort) -> StreamPacket {
    must(rt, m17_stream::read(STREAM))
}

fn join(rt: &impl Abort) -> Record
    ensures { IsWritable result }
{
    let address = must(rt, encode("AB1CD"));
    Record::Join {
        tag: TAG,
        moment: 10,
        member: MEMBER,
        listen: true,
        callsign: CallAddress::new(address).expect(rt, "a callsign"),
    }
}

fn packet(rt: &impl Abort, verdict: Verdict) -> Record
    requires { IsLowVerdict verdict }
    ensures { IsWritable result }
{
    Record::Packet {
        tag: TAG,
        moment: 10,
        member: MEMBER,
        verdict,
        packet: stream(rt),
    }
}

fn leave() -> Record
    ensures { IsWritable result }
{
    Record::Leave {
        tag: TAG,
        moment: 10,
        member: MEMBER,
        why: Why::Silent,
    }
}

/// Whether a record is written as these bytes.
fn is_written(written: Record, bytes: &[u8]) -> bool
    requires { IsWritable written }
{
    write_record(&written).as_slice() == bytes
}

#[test]
fn a_book_is_written_field_by_field(rt: HostRuntime) {
    let book = BOOK.as_slice();
    assert!(rt; write_header(&head(&rt)).as_slice() == &book[..17]);
    assert!(rt; is_written(join(&rt), &book[17..54]));
    assert!(rt; is_written(packet(&rt, BUSY), &book[54..151]));
    assert!(rt; is_written(packet(&rt, LATE), &book[151..248]));
    assert!(rt; is_written(leave(), &book[248..]));
}

/// What the book's header says.
fn head(rt: &impl Abort) -> Head {
    Head {
        module: ModuleLetter::new(b'C').expect(rt, "a module"),
        limit: 180_000,
    }
}

/// The record that the first bytes of these spell, so many of them.
fn read_first(bytes: &[u8], size: usize) -> Option<Record> {
    if size > bytes.len() {
        return None;
    }
    read_record(&bytes[..size])
}

/// Whether a record's bytes are read as it alone, and not with one byte less or one more.
fn is_read_alone(written: Record) -> bool
    requires { IsWritable written }
{
    let mut bytes = [0; 98];
    let spelled = write_record(&written);
    for (at, byte) in spelled.as_slice().iter().enumerate() {
        if let Some(cell) = bytes.get_mut(at) {
            *cell = *byte;
        }
    }
    let len = spelled.as_slice().len();
    let less = read_first(&bytes, len.saturating_sub(1));
    let more = read_first(&bytes, len.saturating_add(1));
    less.is_none() && read_first(&bytes, len) == Some(written) && more.is_none()
}

#[test]
fn a_record_is_read_alone(rt: HostRuntime) {
    assert!(rt; is_read_alone(join(&rt)));
    assert!(rt; is_read_alone(packet(&rt, BUSY)));
    assert!(rt; is_read_alone(packet(&rt, Verdict::TimedOut)));
    assert!(rt; is_read_alone(leave()));
    assert!(rt; read_record(&[]).is_none());
}

/// What a reader says of the header before, and after it gave the first record.
fn heads<R: Abort>(rt: &R, alloc: Global) -> [Option<Head>; 2] {
    let mut source = source(rt, alloc, BOOK, &[]);
    let mut reader = Reader::new();
    let before = reader.head();
    let _first = reader.next(&mut source);
    [before, reader.head()]
}

#[test]
fn a_reader_tells_the_header_once_it_was_read(rt: HostRuntime) {
    assert!(rt; heads(&rt, rt.alloc()) == [None, Some(head(&rt))]);
}

/// What a reader says the next six times.
fn next_six<R: Abort>(rt: &R, alloc: Global) -> [Result<Option<Record>, FormRefusal>; 6] {
    let mut source = source(rt, alloc, BOOK, &[]);
    let mut reader = Reader::new();
    let mut said = [Ok(None); 6];
    for i in 0..6 {
        said[i] = reader.next(&mut source);
    }
    said
}

#[test]
fn a_reader_gives_each_record_and_then_the_end(rt: HostRuntime) {
    let wanted = [
        Ok(Some(join(&rt))),
        Ok(Some(packet(&rt, BUSY))),
        Ok(Some(packet(&rt, LATE))),
        Ok(Some(leave())),
        Ok(None),
        Ok(None),
    ];
    assert!(rt; next_six(&rt, rt.alloc()) == wanted);
}

#[test]
fn a_failed_source_is_told_once_and_for_all(rt: HostRuntime) {
    let mut source = source(&rt, rt.alloc(), BOOK, &[0]);
    let mut reader = Reader::new();
    let failed = Err(FormRefusal::ReadFault);
    assert!(rt; reader.next(&mut source) == failed && reader.next(&mut source) == failed);
}

/// Whether an entry is written as these bytes.
fn is_entry(heard: &Heard, bytes: &[u8]) -> bool {
    match write_entry(heard) {
        Some(entry) => entry.as_slice() == bytes,
        None => false,
    }
}

/// How many bytes an entry has, and the byte of its peer's family.
fn length_and_family(heard: &Heard) -> (usize, u8) {
    match write_entry(heard) {
        Some(entry) => (entry.len(), entry.as_slice().get(9).copied().unwrap_or(0)),
        None => (0, 0),
    }
}

/// A datagram that this peer sent.
fn datagram_from(from: Peer) -> Heard {
    Heard::Datagram {
        from,
        at: 40,
        bytes: Gram::of(b"ACKN"),
    }
}

#[test]
fn an_entry_is_written_field_by_field(rt: HostRuntime) {
    let ip = *b"\x7f\x00\x00\x01\x00\x00\x00\x00\x00\x00\x00\x00\x00\x00\x00\x00";
    let four = Peer {
        six: false,
        ip,
        port: 17_000,
    };
    let six = Peer {
        six: true,
        ip: [0x20; 16],
        port: 1,
    };
    assert!(rt; write_trace_header() == *b"M17TRACE");
    let acknowledged = b"\x01\x00\x00\x00\x00\x00\x00\x00\x28\x04\x7f\x00\x00\x01\x42\x68\x04ACKN";
    assert!(rt; is_entry(&datagram_from(four), acknowledged));
    assert!(rt; length_and_family(&datagram_from(six)) == (33, 6));
    let quiet = Heard::Quiet { at: 0x0102 };
    assert!(rt; is_entry(&quiet, b"\x02\x00\x00\x00\x00\x00\x00\x01\x02"));
    assert!(rt; is_entry(&Heard::Fault, b"\x03"));
    assert!(rt; write_entry(&Heard::End).is_none());
}
