//! The plain values that the whole repository speaks of: addresses, members, peers, datagrams, what a link hears, and
//! the two ways in which a call may fail for reasons of its own. It promises what each of them holds, and no more: what
//! an address or a datagram means, and what becomes of a failure, is left to the crates above.
#![tactic(auto)]

mod address;
mod failures;
mod gram;
mod heard;
mod member;
mod peer;

pub use address::Address;
pub use failures::{Failed, NoMemory};
pub use gram::Gram;
pub use heard::Heard;
pub use member::Member;
pub use peer::Peer;
