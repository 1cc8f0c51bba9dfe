//! How a book and its thread are made.
ghost use Rattle.std.specs.Prelude.{◌≡◌, IfOk};
ghost use Rattle.m17_lane.specs.Ends.{new_popper, new_pusher};
ghost use Rattle.m17_disk.specs.Queue.{IsNewQueue};
ghost use Rattle.m17_disk.specs.Writing.{IsMarker, IsOfBook, IsReady};

use crate::queued_book::{QueuedBook, RESTS};
use crate::slip::Slip;
use crate::writer::Writer;
use m17_crew::{Crew, Running, StdCrew};
use m17_lane::{Bell, Popper, Pusher, make_with};
use m17_ports::Book;
use m17_values::{Failed, NoMemory};
use std::alloc::Global;
use std::marker::Model;
use std::sync::atomic::AtomicBool;
use std::sync::{Arc, Wait};
use std::thread::Threads;

/// How many writes wait for the thread at the most. The room for them takes 256 KiB.
const SLIPS: u32 = 2048;

/// The thread of a book, for `settle`. Contracts see its job as it was when it was started. One that is dropped leaves the
/// thread asleep.
#[derive(Drop)]
pub struct Hand<B: Book + Drop + Send + 'static> {
    pub(crate) running: Running<Writer<B>>,
    pub(crate) marker: Pusher<Slip>,
    pub(crate) ended: Arc<AtomicBool, Global>,
}

impl<B: Book + Drop + Send + 'static> Model for Hand<B> {
    ghost use Rattle.m17_disk.specs.declared.writer.Writer.{Writer};
    ghost use Rattle.m17_disk.specs.Writing.{IsMarker};

    ghost Value = { Writer B };

    ghost view = { λ h. h.running };

    ghost invariant = { λ h. IsMarker h.running h.marker };
}

// A flag, for the thread, the book and the hand.
type Flags = (
    Arc<AtomicBool, Global>,
    Arc<AtomicBool, Global>,
    Arc<AtomicBool, Global>,
);

// A book, the job of its thread, the end by which that is sent the mark, and the flag by which it is known to have ended.
#[derive(Drop)]
struct Made<B, R: Drop> {
    book: QueuedBook<R>,
    writer: Writer<B>,
    marker: Pusher<Slip>,
    ended: Arc<AtomicBool, Global>,
}

/// A book with this number whose writes a new thread makes to `inner`, and that thread. `Failed` where there is no thread
/// or no memory for it.
pub fn open<B: Book + Drop + Send + 'static, R: Threads + Wait + Copy + Drop + Send + 'static>(
    rt: R,
    alloc: Global,
    inner: B,
    number: u64,
) -> Result<(QueuedBook<R>, Hand<B>), Failed>
    ensures new { IfOk result (λ r. IsNewQueue number r.0) }
    ensures inner { IfOk result (λ r. r.1.book ≡ inner) }
    ensures ready { IfOk result (λ r. IsReady r.1) }
    ensures one_lane { IfOk result (λ r. IsOfBook r.0 r.1) }
{
    let Ok(made) = make(rt, alloc, inner, number) else {
        return Err(Failed);
    };
    let Made {
        book,
        writer,
        marker,
        ended,
    } = made;
    match StdCrew::new().start(&rt, alloc, writer) {
        Ok(running) => Ok((
            book,
            Hand {
                running,
                marker,
                ended,
            },
        )),
        Err(_back) => Err(Failed),
    }
}

// The book and the job, new, and of one lane.
fn make<B: Drop, R: Drop>(
    rt: R,
    alloc: Global,
    inner: B,
    number: u64,
) -> Result<Made<B, R>, NoMemory>
    ensures new { IfOk result (λ made. IsNewQueue number made.book) }
    ensures inner { IfOk result (λ made. made.writer.book ≡ inner) }
    ensures ready { IfOk result (λ made. IsReady made.writer) }
    ensures one_lane { IfOk result (λ made. IsOfBook made.book made.writer) }
    ensures marker { IfOk result (λ made. IsMarker made.writer made.marker) }
{
    let bell = Bell::make(alloc)?;
    let (to_thread, marker, slips) = make_lane(alloc, &bell)?;
    let (ended, seen, kept) = make_flags(alloc)?;
    let book = QueuedBook {
        rt,
        slips: to_thread,
        ended: seen,
        rests: RESTS,
        over: false,
        gave_up: false,
        faults: 0,
        number,
    };
    let writer = Writer {
        slips,
        book: inner,
        failed: false,
        bell,
        ended,
        marker: None,
    };
    Ok(Made {
        book,
        writer,
        marker,
        ended: kept,
    })
}

// The lane: the ends of the book and of the mark, and that of the thread.
fn make_lane(
    alloc: Global,
    bell: &Bell,
) -> Result<(Pusher<Slip>, Pusher<Slip>, Popper<Slip>), NoMemory>
    ensures { IfOk result (λ r. (r.2 ≡ new_popper r.2.lane 2048 2)
        × (r.0 ≡ new_pusher r.2 0) × (r.1 ≡ new_pusher r.2 1)) }
{
    let (mut pushers, slips) = make_with(alloc, bell, 2, SLIPS)?;
    match (pushers.pop(), pushers.pop()) {
        (Some(marker), Some(to_thread)) => Ok((to_thread, marker, slips)),
        _ => unreachable!(),
    }
}

// A flag that isn't set.
fn make_flags(alloc: Global) -> Result<Flags, NoMemory> {
    let first = Arc::new(alloc, AtomicBool::new(false))?;
    let second = Arc::try_clone(&first)?;
    let third = Arc::try_clone(&first)?;
    Ok((first, second, third))
}
