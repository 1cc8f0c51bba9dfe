//! A stuck key over threads: what the limit on talking makes of it, and that the book is legal under the limit that it
//! names.
use crate::bench::{a_book, a_mouth, conn, must, one_ear, plan};
use m17_book::{Head, Record, Report, check, read_book};
use m17_crew::StdCrew;
use m17_floor::Verdict;
use m17_port_memory::{ListBook, ListMouth, ScriptEar};
use m17_reflect::{Returned, reflect};
use m17_samples::{frame, said};
use m17_streams::BytesSource;
use m17_tape::Tape;
use m17_values::{Heard, Member};
use std::alloc::Global;
use std::process::Abort;
use std::sync::Wait;
use std::thread::Threads;

// For how long a stream holds its floor here, in milliseconds.
const LIMIT: u64 = 1_000;

// The second peer, as the one that has the floor.
const SECOND: Member = Member {
    place: 1,
    generation: 0,
};

// A frame: of which peer, whose stream has its number, the number of the frame, its moment, and what becomes of it.
type KeyRow = (u8, u16, u64, Verdict);

// The first peer's key is stuck. Its stream comes back 10,000 ms after its last admitted frame.
const KEYS: [KeyRow; 9] = [
    (1, 0, 0, Verdict::Opened),
    (1, 1, 999, Verdict::Continued),
    (1, 2, 1_000, Verdict::TimedOut),
    (2, 0, 1_000, Verdict::Opened),
    (1, 3, 1_040, Verdict::Busy { holder: SECOND }),
    (2, 1, 1_080, Verdict::Continued),
    (1, 4, 2_680, Verdict::TimedOut),
    (1, 5, 10_998, Verdict::TimedOut),
    (1, 6, 10_999, Verdict::Opened),
];

// Both peers come to the module, and then the frames.
fn evening(rt: &impl Abort, alloc: Global) -> Vec<Heard> {
    let mut heard = Vec::new(alloc);
    must(rt, heard.push(conn(rt, 1, 0, b'A')));
    must(rt, heard.push(conn(rt, 2, 0, b'A')));
    for (peer, number, at, _) in &KEYS {
        let bytes = m17_stream::write(&frame(u16::from(*peer), *number, false));
        must(rt, heard.push(said(*peer, *at, &bytes)));
    }
    must(rt, heard.push(Heard::End));
    heard
}

fn run<R: Threads + Wait + Abort + Copy + Send + 'static>(
    rt: &R,
    alloc: Global,
) -> Returned<ScriptEar, ListMouth, ListBook> {
    let mut plan = plan(rt, "A", 2);
    plan.entries = 11;
    plan.limit = LIMIT;
    let ears = one_ear(rt, alloc, ScriptEar::new(evening(rt, alloc)));
    let mouths = a_mouth(rt, alloc, 64);
    let traces = a_book(rt, alloc, 4096);
    let books = a_book(rt, alloc, 4096);
    let modules = plan.modules.count();
    assert!(rt; books.len() == modules as usize);
    let mut crew = StdCrew::new();
    must(
        rt,
        reflect(rt, alloc, &plan, ears, mouths, traces, books, &mut crew),
    )
}

// Whether the cells behind those of the two CONNs have the verdicts of the rows.
fn are_judged(tapes: &Vec<Tape<Verdict>>) -> bool {
    let Some(cells) = tapes.first() else {
        return false;
    };
    KEYS.iter().enumerate().all(|(row, (_, _, _, verdict))| {
        cells.get(row.saturating_add(2)) == Some(*verdict)
    })
}

// The header and the records of the book.
fn book_of(rt: &impl Abort, alloc: Global, books: &Vec<ListBook>) -> (Head, Vec<Record>) {
    let book = books.first().expect(rt, "a book");
    let bytes = must(rt, book.bytes().to_vec(alloc));
    let mut source = BytesSource::new(bytes, Vec::new(alloc));
    must(rt, read_book(alloc, &mut source))
}

// Two joins, nine packets, of which three opened the floor and two continued, and two leaves at the end.
#[test]
fn a_stuck_key_loses_the_floor(rt: HostRuntime) {
    let done = run(&rt, rt.alloc());
    let judged = !done.lost && !done.book_failed && are_judged(&done.tapes);
    let (head, records) = book_of(&rt, rt.alloc(), &done.books);
    drop(done);
    let legal = check(head.limit, records.as_slice()).ok();
    let without = check(0, records.as_slice()).is_ok();
    drop(records);
    let report = Report {
        records: 13,
        streams: 3,
        admitted: 5,
    };
    assert!(rt; judged && legal == Some(report) && !without);
    assert!(rt; head.module.byte() == b'A' && head.limit == LIMIT);
}
