//! Stream packets: one voice frame each. It promises that `read` takes exactly the bytes that a packet spells and
//! names the first reason for all others, that `write` spells the packet, and which frame number is ahead of which.
//! Who may send a packet, and when it is relayed, is left to the crates above.
#![tactic(auto)]

mod bytes;
pub mod laws;
mod order;
mod packet;

pub use bytes::{read, write};
pub use order::ahead;
pub use packet::{FRAME_NUMBERS, PACKET_BYTES, StreamPacket, StreamRefusal};
