//! The words of the command line: which command they name, and its values. The first word is compared here; those after
//! it are read by a simple command of `clap`, one for each command, without help and version flags.
//! `read_words` promises that it answers a command exactly where the words name it (`specs/Words.antt`): the first word is
//! the command's, `clap` takes the others, and each value is within its bounds. What a command does is left to the
//! program, and so are words that are not UTF-8, which it may not hand in.
#![tactic(auto)]

mod bridge_words;
mod clap_words;
mod command;
mod first;
pub mod laws;
mod order;
mod plan;
mod reading;
mod serve_words;
mod tables;
mod talk_words;
mod values;

pub use command::{Command, WordsRefusal};
pub use order::{BridgeOrder, ServeOrder, TalkOrder};
pub use reading::read_words;
