//! The commands whose input and output are text or files alone: `judge`, `show`, `make`, `check` and `migrate`. Each stands
//! by itself, and the last line of a run and its status are left to the program.
//!
//! The command `judge`: records of stream packets, each with its moment and its talker, come in, and a line for each goes
//! out, with the verdict of the floor rule. It promises, for the bytes that came in, the exact text that was written when
//! it ended, the place and the reason where the input is refused, and that a failure is told exactly where a device
//! failed; and that an input has one text (`judge_laws`). Only its start has an allocator, so memory does not grow with the
//! input.
//!
//! The command `show`: lines of hex digits come in, and a line for each goes out that says which packet its bytes spell,
//! or why they spell none. It promises, for the bytes that came in, the exact text that was written when it ended, the
//! line and the reason where the input is refused, and that a failure is told exactly where a device failed; and that an
//! input has one text (`show_laws`). It takes no memory.
//!
//! The command `make`: the trace of a link on which twelve hotspots join three modules and talk there by turns, with frames
//! that are repeated, come out of order or interrupt. It is drawn from a seed, so that the same words give the same bytes
//! on every machine: an input to try the reflector with, and to measure it.
//! `make` promises the exact bytes that it writes, and that a failure is told only where the sink failed; `make_laws` say that
//! the bytes are a trace, of which link, and how many there are. It takes no memory. What a reflector does with such a
//! trace, and the words of the command line, are left to the crates above.
//!
//! The command `check`: the book of a module comes in, and one line goes out, which says that it is legal under the
//! limit of its header, and how many records, streams and admitted packets it has. It promises, for the bytes that came
//! in, that line, or the place and the reason where they are no book or the book isn't legal, and that a failure is
//! told exactly where a device failed; and that an input has one text (`check_laws`). It takes no memory, and reads record by
//! record, so a book of any size goes through one buffer.
//!
//! The command `migrate`: a book of version 1 comes in, and the same module and records go out as a book of version 2
//! without a limit on talking. It judges none of the records: that is left to `check`, which says of the new book what it
//! said of the old one. It promises, for the bytes that came in, the one book of version 2 that says the same
//! (`migrate_laws`), or the place and the reason where they are no book of version 1, and that a failure is told exactly where a
//! device failed. The book is read whole before anything is written.
#![tactic(auto)]

mod judge_command;
pub mod judge_laws;
mod judge_reason;
mod judging;
mod table;

pub use judge_command::judge;
pub use judge_reason::JudgeReason;

mod line_reader;
mod not_shown;
mod show_command;
pub mod show_laws;
mod show_line;
mod show_reason;

pub use show_command::show;
pub use show_reason::ShowReason;

mod draws;
mod hotspot;
mod made;
mod make_command;
pub mod make_laws;
mod maker;
mod sending;
mod talk;

pub use make_command::{ENTRIES_MAX, make};
pub use maker::Maker;

mod check_command;
pub mod check_laws;
mod check_reason;

pub use check_command::check;
pub use check_reason::CheckReason;

mod migrate_command;
pub mod migrate_laws;
mod migrate_reason;

pub use migrate_command::migrate;
pub use migrate_reason::MigrateReason;
