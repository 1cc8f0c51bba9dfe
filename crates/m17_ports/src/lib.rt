//! The outside as a reflector and a client see it, beside the streams of `m17_io`: an ear, the receiving half of a
//! socket; a mouth, its sending half; a book, where a log is written; and the ports that hand them out. Each has a
//! count of its faults, which never falls, and a failure is told only where that count rose. Each may tell its content,
//! as the forms in memory do; real devices tell none. A mark and a label, which no call changes, tell one device from
//! another. When to hear, what to say and what to write is left to the crates above, and the devices to others.
#![tactic(auto)]

mod book;
mod ear;
pub mod laws;
mod mouth;
mod ports;
mod question;
mod shelf;
mod tally;

pub use book::Book;
pub use ear::Ear;
pub use mouth::Mouth;
pub use ports::Ports;
pub use question::Question;
pub use shelf::Shelf;
pub use tally::Tally;
