//! A line of the board comes before the end: the book of the module waits for one at its third write.
use crate::board_tests::BOTH;
use crate::done::Done;
use crate::serve_tests::evening;
use crate::tests::{must, run_over, sink_that};
use crossbeam_utils::Backoff;
use m17_crew::StdCrew;
use m17_port_memory::{ListBook, ListMouth, ScriptEar, ScriptPorts};
use m17_ports::{Book, Ports, Shelf};
use m17_streams::BytesSource;
use m17_values::Failed;
use std::alloc::Global;
use std::process::Abort;
use std::sync::Arc;
use std::sync::atomic::{AtomicU64, Ordering};

// So often the book looks for a line before it gives up.
const MOST_TURNS: u32 = 50_000_000;

// Whether a line was written, for all who are told of it.
type Lines = Arc<AtomicU64, Global>;

// What a book does beside what it keeps.
#[derive(Drop)]
enum Part {
    // It waits for a line, after so many writes.
    Waits(u8, Lines),
    // It holds the lines, and tells of each.
    Tells(Lines),
}

// A book that tells another one of its writes, or waits for that.
#[derive(Drop)]
struct WaitingBook {
    inner: ListBook,
    part: Option<Part>,
    came: bool,
}

// Whether a line was written in the end.
fn comes(lines: &Lines) -> bool {
    let backoff = Backoff::new();
    for _turn in 0..MOST_TURNS {
        if lines.load(Ordering::SeqCst) > 0 {
            return true;
        }
        backoff.snooze();
    }
    false
}

impl Book for WaitingBook {
    ghost use Rattle.std.specs.Prelude.{◌-◌, ◌^◌};
    ghost use Rattle.std.proofs.Math.Nat.{min-le_right};
    ghost use Rattle.m17_port_memory.specs.Tells.{list_book_told};

    type Label = ();

    ghost told = { λ book. list_book_told book.inner };

    ghost faults_fit = { λ book. min-le_right book.inner.faults (2 ^ 64 - 1) };

    fn write(&mut self, bytes: &[u8]) -> Result<(), Failed> {
        self.part = match self.part.take() {
            Some(Part::Waits(0, lines)) => {
                self.came = comes(&lines);
                None
            }
            Some(Part::Waits(more, lines)) => Some(Part::Waits(more - 1, lines)),
            Some(Part::Tells(lines)) => {
                lines.store(1, Ordering::SeqCst);
                Some(Part::Tells(lines))
            }
            None => None,
        };
        self.inner.write(bytes)
    }
}

// Ports whose books do these things, of which the last comes first.
#[derive(Drop)]
struct WaitingPorts {
    inner: ScriptPorts,
    parts: Vec<Option<Part>>,
}

impl Ports for WaitingPorts {
    ghost use Rattle.std.specs.Prelude.{◌-◌, ◌^◌};
    ghost use Rattle.std.proofs.Math.Nat.{min-le_right};
    ghost use Rattle.m17_port_memory.specs.Tells.{script_ports_told};

    type Ear = ScriptEar;

    type Mouth = ListMouth;

    type Book = WaitingBook;

    ghost told = { λ ports. script_ports_told ports.inner };

    ghost faults_fit = { λ ports. min-le_right ports.inner.faults (2 ^ 64 - 1) };

    fn link(&mut self, bind: &str, until: Option<u64>) -> Result<(ScriptEar, ListMouth), Failed> {
        self.inner.link(bind, until)
    }

    fn book(&mut self, name: &str) -> Result<WaitingBook, Failed> {
        let part = match self.parts.pop() {
            Some(part) => part,
            None => None,
        };
        match self.inner.book(name) {
            Ok(inner) => Ok(WaitingBook {
                inner,
                part,
                came: false,
            }),
            Err(failed) => Err(failed),
        }
    }
}

// Whether a line came while the book of the module waited.
fn came<R: Copy>(done: &Done<ScriptEar, ListMouth, WaitingBook, R>) -> bool {
    match &done.house {
        Some(house) => match house.books.as_slice() {
            [Shelf { inner: Some(book) }] => book.came,
            _ => false,
        },
        None => false,
    }
}

// Ports with the link of the evening, a trace, a book that waits, and a board that tells of its lines.
fn ports(rt: &impl Abort, alloc: Global) -> WaitingPorts {
    let mouth = must(rt, ListMouth::make(alloc, 16, Vec::new(alloc)));
    let links = [(ScriptEar::new(evening(rt, alloc)), mouth)];
    let links = must(rt, Vec::from_array(alloc, links));
    let books = [500, 1_000, 1_000].map(|room| must(
        rt,
        ListBook::make(alloc, room, Vec::new(alloc)),
    ));
    let books = must(rt, Vec::from_array(alloc, books));
    let lines = must(rt, Arc::new(alloc, AtomicU64::new(0)));
    let waits = Part::Waits(2, must(rt, Arc::try_clone(&lines)));
    let parts = [Some(Part::Tells(lines)), Some(waits), None];
    WaitingPorts {
        inner: ScriptPorts::new(links, books, Vec::new(alloc)),
        parts: must(rt, Vec::from_array(alloc, parts)),
    }
}

fn let_go<R: Copy + Drop>(_done: Done<ScriptEar, ListMouth, WaitingBook, R>) {}

#[test]
fn a_line_comes_before_the_end(rt: HostRuntime) {
    let alloc = rt.alloc();
    let ports = ports(&rt, alloc);
    let mut source = BytesSource::new(Vec::new(alloc), Vec::new(alloc));
    let (mut sink, mut crew) = (sink_that(&rt, alloc, 100, &[]), StdCrew::new());
    let done = run_over(&rt, alloc, BOTH, ports, &mut crew, &mut source, &mut sink);
    let (status, came) = (done.status, came(&done));
    let_go(done);
    assert!(rt; status == 0 && came);
}
