//! `serve` with a board, from its words to its status, over ports and devices in memory.
use crate::serve_tests::{Serve, evening, let_go};
use crate::tests::{must, run_over, sink_that, status_over};
use m17_crew::{Crew, RefusingCrew, StdCrew};
use m17_port_memory::{ListBook, ListMouth, ScriptEar, ScriptPorts};
use m17_streams::BytesSource;
use std::alloc::Global;
use std::process::Abort;
use std::sync::Wait;
use std::thread::Threads;
use std::time::Clock;

const BOARD: &[&str] = &[
    "serve",
    "--call",
    "M17-TST",
    "--modules",
    "A",
    "--board",
    "b",
    "x",
];

pub(crate) const BOTH: &[&str] = &[
    "serve",
    "--call",
    "M17-TST",
    "--modules",
    "A",
    "--book",
    "d",
    "--board",
    "b",
    "x",
];

const LAST_LINE: &[u8] = b"A records 8 admitted 4 at 160 talker none\n";

const LINE: &str = "A admitted 4 missed 0\n";

// So many new books, of which the last fails at these calls.
fn books(rt: &impl Abort, alloc: Global, count: usize, fails: &[u64]) -> Vec<ListBook> {
    let mut books = must(rt, Vec::with_capacity(alloc, 3));
    for number in 0..count {
        let last = number + 1 == count;
        let fails = must(rt, if last { fails } else { &[] }.to_vec(alloc));
        must(
            rt,
            books.push(must(rt, ListBook::make(alloc, 1_000, fails))),
        );
    }
    books
}

// Serves the evening by these words over these books and ports that fail at these calls: what it came to, and whether that has
// this status and this text.
fn served<C: Crew, R: Threads + Wait + Clock + Abort + Copy + Drop + Send + 'static>(
    rt: &R,
    alloc: Global,
    given: &[&str],
    books: Vec<ListBook>,
    fails: &[u64],
    crew: &mut C,
    wanted: (u8, &str),
) -> (Serve<R>, bool) {
    let mouth = must(rt, ListMouth::make(alloc, 8, Vec::new(alloc)));
    let ear = ScriptEar::new(evening(rt, alloc));
    let links = must(rt, Vec::from_array(alloc, [(ear, mouth)]));
    let ports = ScriptPorts::new(links, books, must(rt, fails.to_vec(alloc)));
    let mut source = BytesSource::new(Vec::new(alloc), Vec::new(alloc));
    let mut sink = sink_that(rt, alloc, 100, &[]);
    let done = run_over(rt, alloc, given, ports, crew, &mut source, &mut sink);
    let as_wanted = done.status == wanted.0 && sink.bytes() == wanted.1.as_bytes();
    (done, as_wanted)
}

// The words, how many books there are, which calls of the ports and of the board fail, and then the status, the text, and how
// the board ends, if it comes back.
type Row = (
    &'static [&'static str],
    usize,
    [&'static [u64]; 2],
    (u8, &'static str),
    Option<&'static [u8]>,
);

const NO_FAILS: [&[u64]; 2] = [&[], &[]];

const FAILED: &str = "A admitted 4 missed 0\nbook failed\n";

// Whether the board came back so.
fn ends_so(board: Option<&ListBook>, wanted: Option<&[u8]>) -> bool {
    match (board, wanted) {
        (Some(board), Some(end)) => board.bytes().ends_with(end),
        (None, None) => true,
        _ => false,
    }
}

// With the books of the modules and without, the last line of the board tells all of the evening, or a board that fails is
// told as a failed book. It is asked for behind the link, the trace and the book, and alone behind the link.
#[test]
fn the_last_line_of_a_board_tells_all_of_an_evening(rt: HostRuntime) {
    const ROWS: [Row; 6] = [
        (BOARD, 1, NO_FAILS, (0, LINE), Some(LAST_LINE)),
        (BOTH, 3, NO_FAILS, (0, LINE), Some(LAST_LINE)),
        (BOARD, 1, [&[], &[0]], (8, FAILED), Some(b"")),
        (BOTH, 3, [&[], &[0]], (8, FAILED), Some(b"")),
        (BOARD, 1, [&[1], &[]], (5, "port failed\n"), None),
        (BOTH, 3, [&[3], &[]], (5, "port failed\n"), None),
    ];
    let alloc = rt.alloc();
    for (i, (given, count, [ports, board], wanted, end)) in ROWS.into_iter().enumerate() {
        let books = books(&rt, alloc, count, board);
        let mut crew = StdCrew::new();
        let (done, as_wanted) = served(&rt, alloc, given, books, ports, &mut crew, wanted);
        let told = ends_so(done.board.as_ref(), end);
        let_go(done);
        assert!(rt; as_wanted && told, "row {i}");
    }
}

// The watch, a receiver, a worker and the sender: the board comes back unwritten, but where the watch was refused.
#[test]
fn a_board_comes_back_where_its_watch_had_begun(rt: HostRuntime) {
    let alloc = rt.alloc();
    for start in [0, 1, 2, 3] {
        let mut crew = RefusingCrew::new(must(&rt, Vec::from_array(alloc, [start])));
        let books = books(&rt, alloc, 3, &[]);
        let wanted = (6, "crew refused\n");
        let (done, as_wanted) = served(&rt, alloc, BOTH, books, &[], &mut crew, wanted);
        let back = match &done.board {
            Some(board) => start > 0 && board.bytes().is_empty(),
            None => start == 0,
        };
        let refused = done.refused.is_some();
        let_go(done);
        assert!(rt; as_wanted && back && refused, "{start}");
    }
}

// The text of so many rules, of which each denies everything.
fn many_rules(rt: &impl Abort, alloc: Global, count: usize) -> Vec<u8> {
    let mut text = Vec::new(alloc);
    for _rule in 0..count {
        must(rt, text.extend_from_slice(b"deny any * *\n"));
    }
    text
}

// Serves by these words over as many links as there may be, a book for each trace, each module and the board, and as many rules
// as a text can have: the status, and how many bytes were printed.
fn most<R: Threads + Wait + Clock + Abort + Copy + Drop + Send + 'static>(
    rt: &R,
    alloc: Global,
    given: &[&str],
) -> (u8, usize) {
    let mut links = Vec::new(alloc);
    for _link in 0..4 {
        let mouth = must(rt, ListMouth::make(alloc, 1, Vec::new(alloc)));
        must(rt, links.push((ScriptEar::new(Vec::new(alloc)), mouth)));
    }
    let ports = ScriptPorts::new(links, books(rt, alloc, 31, &[]), Vec::new(alloc));
    let mut source = BytesSource::new(many_rules(rt, alloc, 5_041), Vec::new(alloc));
    let (mut sink, mut crew) = (sink_that(rt, alloc, 1_000, &[]), StdCrew::new());
    let status = status_over(rt, alloc, given, ports, &mut crew, &mut source, &mut sink);
    (status, sink.bytes().len())
}

// No clause says that there is memory for a reflector of the most links, modules and places, with the names of all its traces
// and books, and with the most rules at each link. A line of 22 bytes for each module is printed.
#[test]
fn a_reflector_has_4_links_26_modules_and_256_places(rt: HostRuntime) {
    const ALL: [&str; 14] = [
        "serve",
        "--rules",
        "--call",
        "M17-TST",
        "--modules",
        "ABCDEFGHIJKLMNOPQRSTUVWXYZ",
        "--places",
        "256",
        "--book=f",
        "a",
        "b",
        "c",
        "d",
        "--board=b",
    ];
    for given in [&ALL[..13], &ALL[..14]] {
        assert!(rt; most(&rt, rt.alloc(), given) == (0, 26 * 22));
    }
}
