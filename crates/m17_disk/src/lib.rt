//! A book whose writes a thread of its own makes, so that a disk that hangs holds nobody who writes to the book. `open`
//! gives the book, which hands each write over on a lane (`QueuedBook`), and starts the thread, which writes to the book
//! that was handed in (`Writer`). Where the lane stays full for some quarter of a second, or the thread has ended, the
//! book fails, is counted, and hands nothing more over. `settle` brings the threads to their end when nobody writes any more, waits for
//! them for a few seconds at the most, and says whether each wrote all that it took.
//! It promises that what is handed over is what was to be written, in order, each once, up to the first failure, and
//! that the thread writes just what it takes, or a first part of it and has failed; with both ends at hand it is known
//! that this is a first part of what was handed over, or all of it (`all_written`).
//! What is written and when, and what the book does that is written to, is left to others. That the thread has ended where
//! the book gives up for that, and that a wait ends, is tested. Nothing is allocated here after `open`.
#![tactic(auto)]

mod both_ends;
mod opening;
mod queued_book;
mod settling;
mod slip;
mod writer;
mod writing;

pub use both_ends::all_written;
pub use opening::{Hand, open};
pub use queued_book::QueuedBook;
pub use settling::{Unsettled, settle};
pub use slip::Slip;
pub use writer::Writer;
