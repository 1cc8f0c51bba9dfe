//! The directory of a link: which peers are known there and as which members, and what becomes of each entry that the
//! link hears. It states that once, over the whole list of entries, by looking back through it by position
//! (`specs/Entries.antt`, `Known.antt`, `Outcome.antt`, `Routed.antt`), and promises that `Directory`, which keeps a
//! sorted table, answers and posts exactly that, and goes on standing for the list (`specs/StandsFor.antt`). `laws` has
//! what follows from the definitions alone. Nothing allocates after `make`. Where a peer that asks gets its place, when
//! a departed member was reported, and who carries what is posted, is left to the crates above.
#![tactic(auto)]

mod asked;
mod departing;
mod directory;
mod dispatch;
mod known;
pub mod laws;
mod packets;
mod people;
mod post;
mod stamp;
mod table;
mod verdict;
mod whom;

pub use asked::Asked;
pub use directory::{Directory, MOST_FAULTS};
pub use dispatch::Dispatch;
pub use known::{Departed, Known, Request};
pub use post::Post;
pub use verdict::{Act, LinkVerdict};
