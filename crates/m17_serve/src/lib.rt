//! The command `serve`: the ports are asked for the links of the words and, where a folder is named, for the trace of each
//! link and the book of each module, and where a board is named for the book of its lines; the reflector runs over them; and a
//! line for each module says what it admitted and what was left out. It promises what was asked and in which order; that the
//! reflector of the words ran over new devices, which come back, and that the headline holds of that run; its lines, and what
//! the lines of a board show; and that a failure is told exactly where the ports, the crew or the sink failed. Want of memory
//! comes before anything was heard. What stands before an ear or behind a mouth is the ports' to hand out: what is known of
//! it, they say by `KnownPorts` of `m17_client_commands`. How the reflector runs is left to `m17_reflect`, and with a board to `m17_board_run`, what
//! the words say to `m17_words`, and the last line of the run to the program.
#![tactic(auto)]

mod carrying;
pub mod laws;
mod letters;
mod line;
mod names;
mod opening;
mod serve_command;
mod served;

pub use serve_command::serve;
pub use served::{ServeEnding, Served};
