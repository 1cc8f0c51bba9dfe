//! What people read: packets, refusals, verdicts and endings as the bytes of a line. It promises the exact text of each.
//! A `Line` is a buffer that is used again; every call that appends is named `push_`, and what a line says fits wherever
//! only its head stands there (`specs/Line.antt`). What is known of a text that is a line for each item, whatever the
//! items are, stands in `specs/Texts.antt`. Which line is printed when, and where it goes, is left to the crates above.
#![tactic(auto)]

mod address;
mod control;
mod ending;
mod kind;
mod line;
mod packet;
mod refused;
mod verdict;

pub use ending::{Ending, NoReason, Reason, TextEnding};
pub use kind::{KIND_COUNT, Kind};
pub use line::Line;
pub use verdict::verdict_word;
