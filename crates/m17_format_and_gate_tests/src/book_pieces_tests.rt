//! That a trace and a book are the same in whatever pieces their bytes come, and that a source which fails is told.
use crate::bench::{BOOK, Pieces, TALK, changed, heard, kept, must, source};
use m17_book::{FormRefusal, Reader, Record, read_book, read_book_1, read_trace, write_entry};
use m17_io::Source;
use m17_values::{Gram, Heard, Peer};
use std::alloc::Global;
use std::process::Abort;

/// Bytes that come in pieces of this size.
fn in_pieces<R: Abort>(rt: &R, alloc: Global, bytes: &[u8], most: usize) -> Pieces {
    let bytes = source(rt, alloc, bytes, &[]);
    Pieces { bytes, most }
}

/// Whether this is what the talk says was heard, in pieces of this size.
fn is_heard<R: Abort>(rt: &R, alloc: Global, most: usize, wanted: &[Heard]) -> bool {
    let mut pieces = in_pieces(rt, alloc, TALK, most);
    match read_trace(alloc, &mut pieces) {
        Ok(heard) => heard.as_slice() == wanted,
        Err(_) => false,
    }
}

/// The records of a book.
fn records<R: Abort>(rt: &R, alloc: Global, bytes: &[u8]) -> Vec<Record> {
    let mut source = source(rt, alloc, bytes, &[]);
    must(rt, read_book(alloc, &mut source)).1
}

/// Whether these are the records of a book in pieces of this size.
fn is_book<R: Abort>(rt: &R, alloc: Global, most: usize, wanted: &[Record]) -> bool {
    let mut pieces = in_pieces(rt, alloc, BOOK, most);
    match read_book(alloc, &mut pieces) {
        Ok((_, records)) => records.as_slice() == wanted,
        Err(_) => false,
    }
}

/// Whether a reader gives these records one by one, and then the end.
fn gives_each<S: Source>(source: &mut S, wanted: &[Record]) -> bool {
    let mut reader = Reader::new();
    for record in wanted {
        if reader.next(source) != Ok(Some(*record)) {
            return false;
        }
    }
    reader.next(source) == Ok(None)
}

/// The same of the book in pieces of this size.
fn is_each_record<R: Abort>(rt: &R, alloc: Global, most: usize, wanted: &[Record]) -> bool {
    let mut pieces = in_pieces(rt, alloc, BOOK, most);
    gives_each(&mut pieces, wanted)
}

// Pieces of each size up to that of the longest record, and a little more: so each field of an entry and of a record is
// cut somewhere.
#[test]
fn pieces_of_each_size_are_the_same_trace_and_book(rt: HostRuntime) {
    let alloc = rt.alloc();
    let mut whole = source(&rt, alloc, TALK, &[]);
    let heard = must(&rt, read_trace(alloc, &mut whole));
    let kept = records(&rt, alloc, BOOK);
    assert!(rt; heard.len() == 8 && kept.len() == 4);
    for most in 1..100 {
        assert!(rt; is_heard(&rt, alloc, most, &heard), "{most}");
        assert!(rt; is_book(&rt, alloc, most, &kept), "{most}");
        assert!(rt; is_each_record(&rt, alloc, most, &kept), "{most}");
    }
}

/// The records of that book 40 times, 160 in all, in 10,497 bytes.
fn long_book<R: Abort>(rt: &R, alloc: Global) -> Vec<u8> {
    let mut bytes = must(rt, BOOK.as_slice()[..17].to_vec(alloc));
    for _ in 0..40 {
        must(rt, bytes.extend_from_slice(&BOOK.as_slice()[17..]));
    }
    bytes
}

/// Whether these records are the four again and again.
fn repeats(book: &[Record], four: &[Record]) -> bool {
    book.chunks(4).all(|part| part == four)
}

// 8,192 bytes are read at a time: the first end in record 125.
#[test]
fn a_record_stands_over_the_end_of_a_read(rt: HostRuntime) {
    let alloc = rt.alloc();
    let mut bytes = long_book(&rt, alloc);
    assert!(rt; bytes.len() == 10_497);
    let short = records(&rt, alloc, BOOK);
    let book = records(&rt, alloc, &bytes);
    assert!(rt; book.len() == 160 && repeats(&book, &short));
    let mut whole = source(&rt, alloc, &bytes, &[]);
    assert!(rt; gives_each(&mut whole, &book));
    bytes.truncate(8_192);
    let cut = FormRefusal::Cut { at: 8_192 };
    assert!(rt; kept(&rt, alloc, &bytes, &[]) == Err(cut));
}

/// A book of this header and so many Leaves.
fn leaves<R: Abort>(rt: &R, alloc: Global, header: &[u8], count: usize) -> Vec<u8> {
    let mut bytes = must(rt, header.to_vec(alloc));
    for _ in 0..count {
        must(rt, bytes.extend_from_slice(&BOOK.as_slice()[248..]));
    }
    bytes
}

/// How many records a book of version 1 has, or why it is none.
fn kept_before<R: Abort>(rt: &R, alloc: Global, bytes: &[u8]) -> Result<usize, FormRefusal> {
    let mut source = source(rt, alloc, bytes, &[]);
    read_book_1(alloc, &mut source).map(|book| book.1.len())
}

// No clause says that there is memory for very many records.
#[test]
fn a_book_of_70_000_records_is_read(rt: HostRuntime) {
    let alloc = rt.alloc();
    let two = leaves(&rt, alloc, &BOOK.as_slice()[..17], 70_000);
    let one = leaves(&rt, alloc, b"M17BOOK1C", 70_000);
    let read = [kept(&rt, alloc, &two, &[]), kept_before(&rt, alloc, &one)];
    assert!(rt; read == [Ok(70_000), Ok(70_000)]);
}

/// A trace of so many datagrams of 64 bytes.
fn datagrams<R: Abort>(rt: &R, alloc: Global, count: u64) -> Vec<u8> {
    let mut trace = must(rt, b"M17TRACE".to_vec(alloc));
    for at in 0..count {
        let from = Peer {
            six: false,
            ip: [0; 16],
            port: 9,
        };
        let bytes = Gram::of(&[7; 64]);
        let entry = write_entry(&Heard::Datagram { from, at, bytes }).expect(rt, "an entry");
        must(rt, trace.extend_from_slice(entry.as_slice()));
    }
    trace
}

#[test]
fn a_source_that_fails_at_any_read_is_told(rt: HostRuntime) {
    let alloc = rt.alloc();
    let trace = datagrams(&rt, alloc, 400);
    let failed = Err(FormRefusal::ReadFault);
    for call in 0..4 {
        assert!(rt; heard(&rt, alloc, &trace, &[call]) == failed, "{call}");
    }
    // A wrong byte, and then a failure where the rest is gone through to count its bytes.
    let bytes = changed(&rt, alloc, &trace, 8, 9);
    let read = [
        heard(&rt, alloc, &bytes, &[2]),
        heard(&rt, alloc, &bytes, &[]),
        kept(&rt, alloc, BOOK, &[1]),
    ];
    assert!(rt; read == [failed, Err(FormRefusal::Kind { at: 8, byte: 9 }), failed]);
}
