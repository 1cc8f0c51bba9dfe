//! What is known where a book and its thread's job are both at hand.
ghost use Rattle.std.specs.Prelude.{◌≡◌, ◌++◌, ℕ, List, true, false, take, IfOk};
ghost use Rattle.m17_ports.specs.Told.{told_then};
ghost use Rattle.m17_disk.specs.Queue.{joined};
ghost use Rattle.m17_ports.specs.Book.{BookTold, HasText};
ghost use Rattle.m17_disk.specs.Writing.{HasMarker, IsOfBook};

use crate::queued_book::QueuedBook;
use crate::writer::Writer;
use m17_lane::finish;
use m17_ports::Book;
use m17_values::NoMemory;
use std::alloc::Global;
use std::sync::Wait;

/// Takes a book and the job of its thread apart, and gives the book that was written to, with whether all that was handed
/// over was written. What was written is a first part of that, also where it was not. `NoMemory` where there is none for it.
pub fn all_written<B: Book + Drop, R: Drop, W: Wait>(
    rt: &W,
    alloc: Global,
    book: QueuedBook<R>,
    writer: Writer<B>,
) -> Result<(B, bool), NoMemory>
    requires one_lane { IsOfBook book writer }
    requires marker { HasMarker writer }
    ensures same { IfOk result (λ r. r.0 ≡ writer.book) }
    ensures taken { IfOk result (λ _. (rest : List ℕ)
        × (joined book.slips.pushed ≡ joined writer.slips.popped ++ rest)) }
    ensures first_part { IfOk result (λ r. (start : BookTold B.Label)
        → HasText start (joined writer.slips.popped) writer.failed (B.told writer.book)
        → (n : ℕ) × ((B.told r.0).written
        ≡ told_then start.written (take n (joined book.slips.pushed)))) }
    ensures all { IfOk result (λ r. r.1 ≡ true → (start : BookTold B.Label)
        → HasText start (joined writer.slips.popped) writer.failed (B.told writer.book)
        → HasText start (joined book.slips.pushed) false (B.told r.0)) }
{
    let QueuedBook {
        rt: _,
        slips: pusher,
        ended: _,
        rests: _,
        over: _,
        gave_up: _,
        faults: _,
        number: _,
    } = book;
    let Writer {
        slips,
        book,
        failed,
        bell: _,
        ended: _,
        marker,
    } = writer;
    let Some(marker) = marker else {
        unreachable!();
    };
    let mut ends = Vec::with_capacity(alloc, 2)?;
    ends.push_reserved(marker);
    ends.push_reserved(pusher);
    let mut trail = finish(ends, slips);
    let all = trail.left(rt).is_none();
    Ok((book, all && !failed))
}
