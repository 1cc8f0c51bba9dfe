//! The command `talk`: a script comes in, a client talks by it over the link that the ports hand out, keeps what it hears
//! in a book where one is named, and a line says what became of it. It promises which inputs are scripts, and where and
//! why any other is refused (`laws`: for one reason); that the ports are asked for nothing before the script was read,
//! and then for the link, for the book, and for nothing else; that the client of the words ran over new devices, which
//! come back; its line; and that a failure is told exactly where a device failed. What the client does at each thing
//! heard is left to `m17_client`, what the words say to `m17_words`, and the last line of the run to the program.
//!
//! The command `bridge`: the ports are asked for the link of each side, near first; a client of the reflector there and
//! one of the other reflector run over them as a bridge, and a line says how many packets passed from each side. It
//! promises what was asked and in which order; that the bridge of the words ran over new devices, which come back, and
//! what `m17_client` promises of such a run; its line; and that a failure is told exactly where the ports or the sink
//! failed. It reads nothing, and takes no memory. What stands before an ear or behind a mouth is the ports' to hand out:
//! what is known of it, they say by `KnownPorts`. Which packets pass is left to `m17_client`, what the words say to
//! `m17_words`, and the last line of the run to the program.
#![tactic(auto)]

pub mod laws;
mod reading;
mod reason;
mod record;
mod talk_command;
mod talk_ending;
mod talk_line;
mod talk_opening;

pub use reading::read_script;
pub use reason::{ScriptFailure, ScriptReason};
pub use talk_command::talk;
pub use talk_ending::{TalkEnding, Talked};

mod known;

pub use known::KnownPorts;

mod bridge_command;
mod bridge_command_ending;
mod bridge_command_line;
mod bridge_command_opening;

pub use bridge_command::bridge;
pub use bridge_command_ending::{BridgeEnding, Bridged};
