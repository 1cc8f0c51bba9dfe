//! The devices of a reflector in memory, for tests and for runs over what is there: an ear that follows a script, a
//! mouth that keeps a list, a mouth that keeps tallies alone, a book of a fixed room, and ports that hand these out.
//! Each tells all of its content, and fails exactly at the calls that it was told to fail at (a mouth or a book also
//! where its room does not suffice). What is heard, said and written is left to the caller.
//!
//! Devices in memory that fail in the middle: an ear over another one, of which the calls that are listed are Faults, and
//! a book of a fixed room, of which the calls that are listed keep a first part of their bytes and fail. Both are for
//! tests of what goes on when a device fails. They promise what each call answers and leaves, by a look-up in the list
//! that they were given.
#![tactic(auto)]

mod list_book;
mod list_mouth;
mod script_ear;
mod script_ports;
mod tally_mouth;

pub use list_book::ListBook;
pub use list_mouth::ListMouth;
pub use script_ear::ScriptEar;
pub use script_ports::ScriptPorts;
pub use tally_mouth::TallyMouth;

mod faulty_ear;
mod torn_book;

pub use faulty_ear::FaultyEar;
pub use torn_book::TornBook;
