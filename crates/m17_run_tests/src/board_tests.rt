//! A board is written while the reflector runs.
ghost use Rattle.std.specs.Prelude.{◌≡◌, All, vec_len};
ghost use Rattle.m17_ports.specs.Told.{StartsEmpty};
ghost use Rattle.m17_board_run.specs.Kept.{told_of_shelf};

use crate::bench::{a_mouth, conn, must, one_ear, plan};
use crate::meeting::{MeetingBook, pair_of_counts};
use m17_board_run::{OnBoard, make_board, reflect_on_board};
use m17_crew::StdCrew;
use m17_port_memory::{ListMouth, ScriptEar};
use m17_ports::{Book, Shelf};
use m17_samples::{frame, said};
use m17_values::Heard;
use std::alloc::Global;
use std::process::Abort;
use std::sync::Wait;
use std::thread::Threads;
use std::time::Clock;

// A peer comes to the module and says three frames.
fn three_frames(rt: &impl Abort, alloc: Global) -> Vec<Heard> {
    let mut heard = Vec::new(alloc);
    must(rt, heard.push(conn(rt, 1, 0, b'A')));
    for at in 0..3u16 {
        let bytes = m17_stream::write(&frame(7, at, at == 2));
        must(rt, heard.push(said(1, 40, &bytes)));
    }
    heard
}

// The shelf of the one link or module.
fn shelf<B: Book + Drop, R: Abort>(rt: &R, alloc: Global, book: B) -> Vec<Shelf<B>>
    requires book { StartsEmpty (B.told book).written }
    ensures count { vec_len result ≡ 1 }
    ensures new { All (λ shelf. StartsEmpty (told_of_shelf B.told shelf).written) result.items }
{
    let mut all = must(rt, Vec::with_capacity(alloc, 1));
    all.push_reserved(Shelf { inner: Some(book) });
    all
}

// Runs one module with this book and a board whose lines are written to the other one.
fn run_on_board<R: Threads + Wait + Clock + Abort + Copy + Drop + Send + 'static>(
    rt: &R,
    alloc: Global,
    book: MeetingBook,
    lines: MeetingBook,
) -> OnBoard<ScriptEar, ListMouth, MeetingBook> {
    let plan = plan(rt, "A", 4);
    let ears = one_ear(rt, alloc, ScriptEar::new(three_frames(rt, alloc)));
    let mouths = a_mouth(rt, alloc, 64);
    let traces = shelf(rt, alloc, MeetingBook::alone());
    let books = shelf(rt, alloc, book);
    assert!(rt; plan.modules.count() == 1);
    let board = must(rt, make_board(alloc, 1, 1, true));
    let mut crew = StdCrew::new();
    must(
        rt,
        reflect_on_board(
            rt,
            alloc,
            &plan,
            ears,
            mouths,
            traces,
            books,
            Some(lines),
            board,
            &mut crew,
        ),
    )
}

// The book of the module waits at its third write, behind its header and its first record, until a line was written.
#[test]
fn seen_while_open(rt: HostRuntime) {
    let (of_book, of_lines) = pair_of_counts(&rt, rt.alloc());
    let done = run_on_board(
        &rt,
        rt.alloc(),
        MeetingBook::behind(of_book, 2, 1),
        MeetingBook::behind(of_lines, 0, 0),
    );
    assert!(rt; !done.house.book_failed && !done.lines_failed);
    drop(done);
}
