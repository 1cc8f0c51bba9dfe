//! The trusted edge: what one read and one write of the system are made of, and the program on a reader and on what
//! prints. That bytes pass through whole is told by no clause here, since the system tells nothing of content.
use crate::std_in::StdIn;
use crate::std_out::StdOut;
use crate::streams::run_on;
use crate::tests::{keys, must, no_ports, words};
use m17_crew::StdCrew;
use m17_io::{Outlet, Source};
use m17_values::Failed;
use std::alloc::Global;
use std::cell::{Cell, RefCell};
use std::fmt::Display;
use std::io::{self, Error, ErrorKind, Read};
use std::process::Abort;
use std::sync::Wait;
use std::thread::Threads;
use std::time::Clock;

// What the system answers to one call.
#[derive(Clone, Copy)]
enum Answer {
    Bytes(usize),
    Interrupted,
    Fails(ErrorKind),
}

use Answer::{Bytes, Fails, Interrupted};

// The answer to the call of this number, from 0: the last one comes to all further calls.
fn answer_to(answers: &[Answer], call: usize) -> Answer {
    match answers.get(call).or(answers.last()) {
        Some(answer) => *answer,
        None => Bytes(usize::MAX),
    }
}

// A reader of these bytes that answers so.
#[derive(Drop)]
struct Halting<'a> {
    left: &'a [u8],
    answers: &'a [Answer],
    calls: usize,
}

fn reader_of<'a>(left: &'a [u8], answers: &'a [Answer]) -> Halting<'a> {
    Halting {
        left,
        answers,
        calls: 0,
    }
}

impl Read for Halting<'_> {
    fn read(&mut self, buf: &mut [u8]) -> io::Result<usize> {
        let call = self.calls;
        self.calls = self.calls.saturating_add(1);
        let most = match answer_to(self.answers, call) {
            Bytes(most) => most,
            Interrupted => return Err(Error::from(ErrorKind::Interrupted)),
            Fails(kind) => return Err(Error::from(kind)),
        };
        let n = most.min(buf.len()).min(self.left.len());
        let (given, left) = self.left.split_at(n);
        buf[..n].copy_from_slice(given);
        self.left = left;
        Ok(n)
    }
}

// What prints into memory, and answers so.
#[derive(Drop)]
struct Collected<'a> {
    bytes: RefCell<Vec<u8>>,
    answers: &'a [Answer],
    calls: Cell<usize>,
}

fn printer_that<'a>(alloc: Global, answers: &'a [Answer]) -> Collected<'a> {
    Collected {
        bytes: RefCell::new(Vec::new(alloc)),
        answers,
        calls: Cell::new(0),
    }
}

impl Collected<'_> {
    fn holds(&self, bytes: &[u8]) -> bool {
        match self.bytes.try_borrow() {
            Ok(held) => held.as_slice() == bytes,
            Err(_) => false,
        }
    }
}

impl Print for Collected<'_> {
    fn print<D: Display + Drop>(&self, _value: D) -> io::Result<()> {
        Ok(())
    }

    fn println<D: Display + Drop>(&self, _value: D) -> io::Result<()> {
        Ok(())
    }

    fn write_all(&self, _bytes: &[u8]) -> io::Result<()> {
        Err(Error::from(ErrorKind::Unsupported))
    }

    fn write_some(&self, bytes: &[u8]) -> io::Result<usize> {
        let call = self.calls.get();
        self.calls.set(call.saturating_add(1));
        let most = match answer_to(self.answers, call) {
            Bytes(most) => most,
            Interrupted => return Err(Error::from(ErrorKind::Interrupted)),
            Fails(kind) => return Err(Error::from(kind)),
        };
        let n = most.min(bytes.len());
        match self.bytes.try_borrow_mut() {
            Ok(mut held) => held.extend_from_slice(&bytes[..n])?,
            Err(_) => return Err(Error::from(ErrorKind::Other)),
        }
        Ok(n)
    }
}

// What two reads answer of a reader of five bytes that answers so, and whether bytes are at hand then.
fn reads(answers: &[Answer]) -> ([Result<usize, Failed>; 2], bool) {
    let mut into = [0u8; 8];
    let mut input = StdIn::new(reader_of(b"abcde", answers));
    let first = input.read(&mut into);
    let second = input.read(&mut into);
    ([first, second], input.is_at_hand())
}

// What a send of five bytes and one of these answer where what prints answers so, and whether this is printed then.
fn sends(
    alloc: Global,
    answers: &[Answer],
    more: &[u8],
    printed: &[u8],
) -> ([Result<usize, Failed>; 2], bool) {
    let to = printer_that(alloc, answers);
    let mut out = StdOut::new(&to);
    let first = out.send(b"abcde");
    let second = out.send(more);
    ([first, second], to.holds(printed))
}

// However often a signal interrupts a call it is made again, and each other kind of error is a fault, at once.
#[test]
fn interruptions_pass_and_other_errors_are_faults(rt: HostRuntime) {
    const KINDS: [ErrorKind; 7] = [
        ErrorKind::BrokenPipe,
        ErrorKind::WouldBlock,
        ErrorKind::TimedOut,
        ErrorKind::UnexpectedEof,
        ErrorKind::StorageFull,
        ErrorKind::OutOfMemory,
        ErrorKind::Other,
    ];
    let alloc = rt.alloc();
    let mut answers = must(&rt, vec![in alloc; Interrupted; 1000]);
    must(&rt, answers.push(Bytes(3)));
    assert!(rt; reads(&answers) == ([Ok(3), Ok(2)], false));
    assert!(rt; sends(alloc, &answers, b"", b"abc") == ([Ok(3), Ok(0)], true));
    let (failed, all) = (([Err(Failed), Ok(5)], false), ([Err(Failed), Ok(5)], true));
    for kind in KINDS {
        let answers = [Interrupted, Fails(kind), Bytes(8)];
        let sent = sends(alloc, &answers, b"abcde", b"abcde");
        assert!(rt; reads(&answers) == failed && sent == all);
    }
    let sent = sends(alloc, &[Bytes(0)], b"", b"");
    assert!(rt; sent == ([Err(Failed), Ok(0)], true));
}

// The program's words, its reader's bytes and answers, its printer's answers, and then its status and what it printed.
type Run = (
    &'static [&'static str],
    &'static [u8],
    &'static [Answer],
    &'static [Answer],
    u8,
    &'static [u8],
);

// Whether the program comes to what a row says.
fn is_run<R: Threads + Wait + Clock + Abort + Copy + Drop + Send + 'static>(
    rt: &R,
    alloc: Global,
    run: &Run,
) -> bool {
    let (given, input, reads, writes, status, printed) = *run;
    let words = words(rt, alloc, given);
    let to = printer_that(alloc, writes);
    let (ports, mut crew) = (no_ports(alloc), StdCrew::new());
    let reader = reader_of(input, reads);
    let ended = run_on(rt, alloc, keys(rt), &words, ports, &mut crew, reader, &to).0;
    ended == status && to.holds(printed)
}

#[test]
fn each_status_of_the_program_comes_with_its_line(rt: HostRuntime) {
    const ONE: &[Answer] = &[Bytes(1)];
    const ALL: &[Answer] = &[Bytes(usize::MAX)];
    const FAILS: &[Answer] = &[Bytes(4), Fails(ErrorKind::BrokenPipe)];
    const LINES: &[u8] = b"4d31370\n";
    const REFUSED: &[u8] = b"words refused\n";
    // The second call of the printer fails: what it has by then was handed on before more input was waited for.
    const SECOND: &[Answer] = &[Bytes(usize::MAX), Fails(ErrorKind::BrokenPipe)];
    const ZEROS: &[u8] = &[0; 128];
    const ONE_LINE: &[u8] = b"0 refused magic 00000000\n";
    const TWO_LINES: &[u8] = b"41434B4E\n4E41434B\n";
    const RUNS: [Run; 10] = [
        (&["show"], b"", ALL, ALL, 0, b""),
        (&["show"], LINES, ONE, ONE, 1, b"input refused at 0: odd\n"),
        (
            &["judge"],
            b"short",
            ONE,
            ONE,
            1,
            b"input refused at 5: cut\n",
        ),
        (&[], LINES, ALL, ONE, 2, REFUSED),
        (&["show", "show"], LINES, ALL, ALL, 2, REFUSED),
        (&["judge", ""], LINES, ALL, ALL, 2, REFUSED),
        (&["show"], LINES, FAILS, ONE, 3, b"read failed\n"),
        (&["show"], LINES, ALL, FAILS, 4, b"inpu"),
        (&["judge"], ZEROS, &[Bytes(64)], SECOND, 4, ONE_LINE),
        (&["show"], TWO_LINES, &[Bytes(9)], SECOND, 4, b"ackn\n"),
    ];
    for (i, run) in RUNS.iter().enumerate() {
        assert!(rt; is_run(&rt, rt.alloc(), run), "run {i}");
    }
}
