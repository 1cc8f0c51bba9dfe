//! A live board: what each module's book said last, for a reader in another thread. `make` gives a poster and an eye for
//! each module; a poster posts records, an eye looks at what they come to (`Glance`), and a `Note` tells an eye what was
//! posted so far. A `BoardBook` is a book over another one that posts each record that is written to it; a `Watch` is the job
//! of the thread that looks, and writes a line where a module has more records than its last line says.
//! It promises that what an eye sees is a glance at a first part of what was posted, no shorter than at its earlier looks
//! and than each note that it was told; that a `BoardBook` is a book as the inner one is, and posts the records that stand
//! whole in the bytes that this took; that a line tells what an eye saw, with rising numbers, and that the lines of an ended
//! board show all that was posted.
//! That a reader looks often, and which first parts it sees, is promised by nobody: a watch sleeps a tenth of a second between
//! two rounds. What is written, and when a board ends, is left to the crates above. The rule of each step is `Kept` in
//! `specs/Rule.antt`.
#![tactic(auto)]

mod board_book;
mod closing;
mod ending;
mod eye;
mod feed;
mod glance;
mod header;
pub mod laws;
mod line;
mod making;
mod note;
mod poster;
mod rule;
mod sight;
mod watch;

pub use board_book::{BoardBook, BoardLabel};
pub use closing::{close, close_into};
pub use eye::Eye;
pub use glance::Glance;
pub use making::make;
pub use note::Note;
pub use poster::Poster;
pub use watch::Watch;
