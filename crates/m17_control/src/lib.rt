//! The packets of the wire: the seven control packets of this profile, and stream packets beside them. It promises
//! that `decode` takes exactly the bytes that some packet spells, and names the first reason for all others, and that
//! `write` spells the packet. What a packet does to a peer or a module is left to the crates above.
#![tactic(auto)]

mod event;
mod form;
mod item;
pub mod laws;
mod letter;
mod modules;
mod packet;
mod reader;
mod speller;
mod writer;

pub use event::{Body, Event, Tag, Why};
pub use item::{Direct, Item, Said};
pub use letter::ModuleLetter;
pub use modules::{Modules, ModulesRefusal};
pub use packet::{Control, Packet, Refusal};
pub use reader::decode;
pub use speller::spell;
pub use writer::write;
