//! What is posted of writes.
ghost use Rattle.m17_board.specs.Ends.{IsPair};

use crate::bench::must;
use crate::board_bench::{join, leave, one_pair};
use m17_board::{BoardBook, Glance};
use m17_book::{Head, write_header, write_record};
use m17_control::ModuleLetter;
use m17_port_memory::ListBook;
use m17_ports::Book;
use std::alloc::Global;
use std::process::Abort;
use std::sync::Wait;

// How many bytes a header has, a Join and a Leave.
const HEADER: usize = 17;

const WHOLE: usize = 17 + 37 + 31;

// The bytes of a book: its header, a member that comes in at 10 and leaves at 20.
fn two_records<R: Abort>(rt: &R, alloc: Global) -> Vec<u8> {
    let head = Head {
        module: ModuleLetter::new(b'A').expect(rt, "a letter"),
        limit: 0,
    };
    let mut bytes = Vec::new(alloc);
    must(rt, bytes.extend_from_slice(&write_header(&head)));
    must(
        rt,
        bytes.extend_from_slice(write_record(&join(rt, 10, 0)).as_slice()),
    );
    must(
        rt,
        bytes.extend_from_slice(write_record(&leave(20, 0)).as_slice()),
    );
    bytes
}

// Writes the bytes, so many at a time, to a book that posts and fails at the calls that are listed: what was posted.
fn posted<R: Wait + Abort + Copy + Drop>(
    rt: &R,
    alloc: Global,
    bytes: &[u8],
    size: usize,
    fails: Vec<u64>,
) -> Glance {
    let (poster, _eye) = one_pair(rt, alloc);
    let inner = must(rt, ListBook::make(alloc, 256, fails));
    let mut book = BoardBook::new(*rt, inner, poster);
    for part in bytes.chunks(size.max(1)) {
        let _ = book.write(part);
    }
    let (_inner, poster) = book.into_parts();
    poster.glance()
}

#[test]
fn records_are_posted_however_their_bytes_are_cut(rt: HostRuntime) {
    let bytes = two_records(&rt, rt.alloc());
    assert!(rt; bytes.len() == WHOLE);
    for size in [1, 7, 16, 17, 31, 54, 85, 97] {
        let seen = posted(
            &rt,
            rt.alloc(),
            bytes.as_slice(),
            size,
            Vec::new(rt.alloc()),
        );
        assert!(rt; seen.records == 2 && seen.moment == 20);
    }
}

#[test]
fn a_record_that_is_not_whole_is_not_posted(rt: HostRuntime) {
    let bytes = two_records(&rt, rt.alloc());
    for (len, records) in [
        (HEADER, 0),
        (HEADER + 36, 0),
        (HEADER + 37, 1),
        (WHOLE - 1, 1),
    ] {
        assert!(rt; len < bytes.len());
        let seen = posted(&rt, rt.alloc(), &bytes[..len], 5, Vec::new(rt.alloc()));
        assert!(rt; seen.records == records);
    }
}

#[test]
fn of_a_write_that_failed_nothing_is_posted(rt: HostRuntime) {
    let bytes = two_records(&rt, rt.alloc());
    let fails = must(&rt, Vec::from_array(rt.alloc(), [1]));
    let seen = posted(&rt, rt.alloc(), bytes.as_slice(), 54, fails);
    assert!(rt; seen.records == 1);
}

#[test]
fn behind_bytes_that_are_refused_nothing_is_posted(rt: HostRuntime) {
    let mut bytes = two_records(&rt, rt.alloc());
    assert!(rt; bytes.len() == WHOLE);
    bytes[HEADER] = 9;
    let seen = posted(&rt, rt.alloc(), bytes.as_slice(), 97, Vec::new(rt.alloc()));
    assert!(rt; seen.records == 0);
}
