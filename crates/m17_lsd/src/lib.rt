//! Link setup data: who sends to whom, and what. It promises that its 28 bytes and its fields are exact both ways, and
//! the printed text of TYPE for every value. What the fields may hold in a packet is left to the crates above, which
//! pass TYPE and META unread.
#![tactic(auto)]

mod bytes;
mod kind_text;
pub mod laws;
mod lsd;

pub use bytes::{read, write};
pub use kind_text::type_text;
pub use lsd::Lsd;
