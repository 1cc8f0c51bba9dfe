//! Callsigns, of stations and of groups, and the 48-bit addresses that stand for them in packets. It promises that
//! `encode` takes exactly the callsigns and names the first reason for every other text, that `text` gives each address
//! its one callsign, and that the six bytes of an address are exact both ways. How an address is printed, and which
//! addresses a packet may have, is left to the crates above.
#![tactic(auto)]

mod bytes;
mod call_address;
mod call_text;
mod encoding;
pub mod laws;
mod letters;
mod refusal;

pub use bytes::{from_bytes, to_bytes};
pub use call_address::{CallAddress, END_OF_CALLSIGNS};
pub use call_text::{CallText, text};
pub use encoding::encode;
pub use m17_values::Address;
pub use refusal::CallRefusal;
