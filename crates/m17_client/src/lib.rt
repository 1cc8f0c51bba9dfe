//! A client of a reflector: it asks to join a module, answers pings, keeps the voice packets that reach it, and leaves.
//! `Client::step` takes one thing that was heard or that the user does, with its moment, to what is to be said or kept
//! and to the next state. It promises that each step is one of the table (`specs/Client.antt`), from any state, with
//! the exact bytes that are said, and that a step asks for two things at most. `talk` runs a client over an ear, a
//! mouth and a book, with a script of packets to send. It promises which steps are taken at what is heard
//! (`specs/Talk.antt`), that the mouth said and the book has what these ask for, but for what a device failed to take,
//! and when the run is over (`specs/TalkDevices.antt`). What follows where the way to the reflector may lose, repeat and
//! reorder datagrams is in `laws` (`specs/Way.antt`): what a client keeps was said to it. The devices, and that an ear
//! answers often enough for the time rules to come in time, are left to its caller.
//!
//! A bridge between a module here and a module of another reflector: a client of both.
//! `Bridge::step` steps the client of one side on what it heard, and the other client on each
//! packet that was kept and passes. It promises that the steps are a run of two clients by the
//! client's table, and that what passes is by the rule (`specs/Passing.antt`): never both sides at
//! once. `cross` runs a bridge over an ear and a mouth of each side. It promises which entries are
//! stepped, that each mouth said what the steps say, but for what it failed to send, and when the
//! run is over. The devices are left to its caller. What every run of a bridge keeps is in `bridge_laws`.
#![tactic(auto)]

mod client;
pub mod laws;
mod log;
mod progress;
mod run;
mod script;
mod session;
mod state;
mod talking;

pub use client::{Client, MOST_ACTIONS};
pub use run::MOST_FAULTS;
pub use script::is_in_order;
pub use state::{Action, Ending, Input, LastKept, SAID_BYTES, State};
pub use talking::{TalkEnd, talk};

mod bridge;
pub mod bridge_laws;
mod bridge_run;
mod crossing;
mod saying;
mod side;

pub use bridge::{Bridge, Crossing, MOST_CROSSES};
pub use crossing::{BridgeEnd, cross};
pub use side::{Cross, Side};
