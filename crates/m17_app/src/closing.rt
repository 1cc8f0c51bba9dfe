//! What the program does for its books: it starts their threads before its command, and closes them when that has ended.
ghost use Rattle.std.specs.Prelude.{◌≡◌, ◌⊎◌, reverse, length, All, IfOk, is_some, false};
ghost use Rattle.std.specs.List.{AllZip};
ghost use Rattle.m17_io.specs.Faults.{HasRisen};
ghost use Rattle.m17_io.specs.Source.{SourceTold};
ghost use Rattle.m17_print.specs.Endings.{book_failed_line};
ghost use Rattle.m17_disk.specs.Writing.{EndsAs};
ghost use Rattle.m17_net.specs.Devices.{IsBegun, file_book_told};
ghost use Rattle.m17_app.specs.Started.{IsClosed};
ghost use Rattle.m17_app.specs.Status.{IsStatus, WritesLast, streams};

use crate::conclude::end_with;
use crate::habits::Habits;
use crate::status::Status;
use crate::std_out::StdOut;
use m17_disk::{Hand, Writer, settle};
use m17_io::Sink;
use m17_net::{FileBook, LateFile, UdpPorts};
use m17_streams::BufferedSink;
use m17_values::NoMemory;
use std::alloc::Global;
use std::fs::File;
use std::marker::Model;
use std::net::Net;
use std::rt::Files;
use std::sync::Wait;
use std::thread::Threads;
use std::time::Clock;

/// What became of the threads of books: of each the job, done, where it ended in time.
pub(crate) type Ended = Vec<Option<Writer<FileBook<LateFile>>>>;

/// The threads of the books that a command may keep, and the room for what becomes of them.
#[derive(Drop)]
pub(crate) struct Staff {
    hands: Vec<Hand<FileBook<LateFile>>>,
    ended: Ended,
}

impl Model for Staff {
    ghost use Rattle.std.specs.Prelude.{◌≡◌, ◌≤◌, ◌+◌, List, [], vec_len, vec_capacity};
    ghost use Rattle.m17_disk.specs.declared.writer.Writer.{Writer};
    ghost use Rattle.m17_net.specs.declared.late_file.LateFile.{LateFile};
    ghost use Rattle.m17_net.specs.Devices.{BookKept};

    ghost Value = { List (Writer (BookKept LateFile)) };

    ghost view = { λ s. s.hands.items };

    ghost invariant = { λ s. (s.ended.items ≡ [])
        × (vec_len s.ended + vec_len s.hands ≤ vec_capacity s.ended) };
}

// Starts threads for so many books and traces. Where one cannot be started, the ports count a fault and have no book for it,
// and no more are. `NoMemory` where there is none for their list.
pub(crate) fn staff_books<
    R: Threads
        + Wait
        + Net
        + Files<File = File>
        + Clock
        + AllocGlobal
        + Copy
        + Drop
        + Send
        + 'static,
>(ports: &mut UdpPorts<R>, alloc: Global, count: usize) -> Result<Staff, NoMemory>
    // Each of them is that of a new book, and its file has not failed.
    ensures begun { IfOk result (λ staff. All IsBegun staff) }
    ensures all { IfOk result (λ staff. ports.new.faults ≡ 0 → length staff ≡ count) }
    ensures same { ports.new ≡ record ports.old { faults = ports.new.faults } }
{
    let mut hands = Vec::with_capacity(alloc, count)?;
    let ended = Vec::with_capacity(alloc, count)?;
    while hands.len() < count {
        match ports.staff() {
            Ok(hand) => hands.push_reserved(hand),
            Err(_) => return Ok(Staff { hands, ended }),
        }
    }
    Ok(Staff { hands, ended })
}

/// The ports of the machine for a command with these habits.
pub(crate) fn ports_of<
    R: Threads
        + Wait
        + Net
        + Files<File = File>
        + Clock
        + AllocGlobal
        + Copy
        + Drop
        + Send
        + 'static,
>(rt: R, host: HostRuntime, habits: Habits) -> UdpPorts<R>
    // They were asked for nothing, have not failed, and are as the command wants them.
    ensures { result ≡ record {
      start = result.start;
      rests = habits.rests;
      stops = is_some habits.stop;
      locks = is_some habits.lock;
      calls = 0;
      faults = 0;
    } }
{
    let Habits {
        rests,
        books: _,
        lock,
        stop,
    } = habits;
    let ports = unstopped_ports(rt, rests, lock);
    match stop {
        Some(name) => ports.stopping(host, name),
        None => ports,
    }
}

// Ports whose ears nothing stops, which lock the file of this name where there is one.
fn unstopped_ports<R: Net + Files<File = File> + Clock + AllocGlobal + Copy + Drop>(
    rt: R,
    rests: bool,
    lock: Option<String>,
) -> UdpPorts<R>
    ensures { result ≡ record {
      start = result.start;
      rests = rests;
      stops = false;
      locks = is_some lock;
      calls = 0;
      faults = 0;
    } }
{
    let ports = UdpPorts::new(rt, rests);
    match lock {
        Some(name) => ports.locking(name),
        None => ports,
    }
}

// Waits until the books are written, for a few seconds at the most, and answers the status of the program: that of its
// command, but where this is 0 and some book could not be written whole. Then the last line says so. The jobs of the
// threads are handed back, the last first.
pub(crate) fn close_books<W: Threads + Wait + Clock, P: Print>(
    waits: &W,
    alloc: Global,
    staff: Staff,
    status: u8,
    to: &P,
) -> (u8, Ended)
    requires status { IsStatus status }
    ensures status { IsStatus result.0 }
    ensures ended { AllZip (EndsAs file_book_told) (reverse staff) result.1.items }
    ensures closed { IsClosed result.1.items status result.0 }
{
    let Staff {
        mut hands,
        mut ended,
    } = staff;
    let settled = settle(waits, &mut hands, &mut ended);
    if status != 0 {
        return (status, ended);
    }
    match settled {
        Ok(()) => (0, ended),
        Err(_) => (end_failed(alloc, to).code(), ended),
    }
}

// Says on what prints that a book failed, if there is memory for that, and answers what the program ends with then.
fn end_failed<P: Print>(alloc: Global, to: &P) -> Status
    ensures { (result ≡ Status.BookFailed) ⊎ (result ≡ Status.WriteFailed) }
{
    match BufferedSink::make(alloc, StdOut::new(to)) {
        Ok(mut out) => tell_failed(&mut out),
        Err(_) => Status::BookFailed,
    }
}

// Says that a book failed, and answers that, or that the sink failed.
fn tell_failed<K: Sink>(out: &mut K) -> Status
    ensures answer { (result ≡ Status.BookFailed) ⊎ (result ≡ Status.WriteFailed) }
    ensures cause { result ≡ Status.WriteFailed
        → HasRisen (K.told out.old).faults (K.told out.new).faults }
    ensures line { (source : SourceTold) → WritesLast book_failed_line Status.BookFailed result
        (streams source (K.told out.old)) (streams source (K.told out.new)) }
{
    end_with(out, b"book failed\n", Status::BookFailed)
}
