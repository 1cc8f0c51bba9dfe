//! Traces and books as files: a trace holds all that a link heard, a book all that a module decided. This crate has
//! their forms as bytes, and why other bytes are refused, each refusal with its place in the input. Books have two
//! versions (`specs/Versions.antt`): the present one, with the limit on talking in its header, and one that is read alone.
//! It promises that writing spells an entry, a record or a header, and that a reader of a book gives records that the
//! bytes spell, one by one, the end only where they are the whole input, and else a refusal that the bytes have.
//! Where the source fails it says so, and its count of faults rose.
//! It says which books are legal, exactly: whether each record is what the floor rule makes of all the records before it
//! (`specs/Checks.antt`, over `m17_floor`'s `specs/Legal.antt`), and else which record is the first that isn't, and why.
//! What is heard or decided is left to the crates above.
#![tactic(auto)]

mod book;
mod check_book;
mod checker;
mod checking;
mod cursor;
mod form;
mod head;
pub mod laws;
mod one_record;
mod parse_entry;
mod parse_header;
mod parse_record;
mod parse_verdict;
mod reader;
mod record;
mod refusal;
mod report;
mod roster;
mod settle;
mod silent;
mod spell_entry;
mod spell_header;
mod spell_record;
mod stay;
mod steps;
mod trace;
mod version;

pub use book::{read_book, read_book_1, read_book_1_for};
pub use check_book::check_book_for;
pub use checker::Checker;
pub use checking::check;
pub use head::Head;
pub use m17_floor::Rule;
pub use one_record::read_record;
pub use reader::Reader;
pub use record::Record;
pub(crate) use refusal::Flaw;
pub use refusal::FormRefusal;
pub use report::{Breach, Report};
pub use spell_entry::{write_entry, write_trace_header};
pub use spell_header::write_header;
pub use spell_record::write_record;
pub use trace::{read_trace, read_trace_for};
