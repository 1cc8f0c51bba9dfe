//! The outside as the rest of the repository sees it: a source of bytes and a sink for bytes. Each device has a count
//! of its faults, which never falls, and a failure is told only where that count rose. A device may tell its content,
//! as the forms in memory do; the real streams, which are the program's, tell none of it. A command that reads and
//! prints reads by `read_tied`, so that what it printed is handed on before it waits. What is read or written here is
//! left to whoever calls, and the devices themselves to the crates above.
#![tactic(auto)]

mod fault;
mod filling;
mod input;
mod outlet;
mod sink;
mod source;

pub use fault::Fault;
pub use filling::fill;
pub use input::{Input, read_tied};
pub use outlet::Outlet;
pub use sink::Sink;
pub use source::Source;
