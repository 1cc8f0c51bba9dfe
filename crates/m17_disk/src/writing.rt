//! What a book's thread takes and writes at a time.
ghost use Rattle.std.specs.Prelude.{◌≡◌, ◌≢◌, ◌++◌, true, false};
ghost use Rattle.m17_disk.specs.Queue.{joined};
ghost use Rattle.m17_disk.specs.Writing.{EndsMarked};
ghost use Rattle.m17_ports.specs.Book.{BookTold, HasText};

use crate::slip::{SLIP_BYTES, Slip};
use arrayvec::ArrayVec;
use m17_lane::Popper;
use m17_ports::Book;
use std::sync::Wait;

/// How many writes are made together at the most.
const MOST_SLIPS: usize = 32;

/// How many bytes these may have.
const BATCH_BYTES: usize = MOST_SLIPS * SLIP_BYTES;

// What waited.
#[derive(Clone, Copy, Debug, PartialEq, Eq)]
pub(crate) enum Waited {
    Nothing,
    Writes,
    // the mark behind the last write, maybe behind writes
    Mark,
}

// What was taken: the bytes of writes, and whether the mark stood behind them.
#[derive(Drop)]
struct Batch {
    bytes: ArrayVec<u8, BATCH_BYTES>,
    marked: bool,
}

// Takes what waits, as much as one write may have, and writes it.
pub(crate) fn write_next<B: Book, R: Wait>(
    rt: &R,
    slips: &mut Popper<Slip>,
    book: &mut B,
    failed: &mut bool,
) -> Waited
    requires { failed.old ≡ false }
    ensures slips { slips.new ≡ record slips.old { popped = slips.new.popped } }
    ensures text { (start : BookTold B.Label)
        → HasText start (joined slips.old.popped) false (B.told book.old)
        → HasText start (joined slips.new.popped) failed.new (B.told book.new) }
    ensures mark { result ≡ Waited.Mark → EndsMarked slips.new.popped }
{
    m17_ports::laws::books_are_written_in_turn::<B::Label>();
    let batch = gather(rt, slips);
    if batch.bytes.is_empty() {
        return mark_or(Waited::Nothing, batch.marked);
    }
    // models/books.pml: batch-written
    *failed = book.write(batch.bytes.as_slice()).is_err();
    mark_or(Waited::Writes, batch.marked)
}

// The mark where it was there, and else this.
fn mark_or(other: Waited, marked: bool) -> Waited
    requires { other ≢ Waited.Mark }
    ensures { result ≡ Waited.Mark → marked ≡ true }
{
    if marked { Waited::Mark } else { other }
}

// Takes what waits, up to the room for it or to the mark.
fn gather<R: Wait>(rt: &R, slips: &mut Popper<Slip>) -> Batch
    ensures slips { slips.new ≡ record slips.old { popped = slips.new.popped } }
    ensures bytes { joined slips.new.popped ≡ joined slips.old.popped ++ result.bytes.items }
    ensures mark { result.marked ≡ true → EndsMarked slips.new.popped }
{
    let mut bytes = ArrayVec::new();
    for _ in 0..MOST_SLIPS {
        if bytes.len() > BATCH_BYTES - SLIP_BYTES {
            break;
        }
        // models/books.pml: slip-popped
        match slips.try_pop(rt) {
            Some(slip) if slip.bytes().is_empty() => {
                // models/books.pml: mark-taken
                return Batch {
                    bytes,
                    marked: true,
                };
            }
            Some(slip) => bytes.try_extend_from_slice(slip.bytes()).unwrap(),
            None => break,
        }
    }
    Batch {
        bytes,
        marked: false,
    }
}
