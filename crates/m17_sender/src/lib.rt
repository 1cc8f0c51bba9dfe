//! The job of the thread that sends, and the order in which it acts.
//!
//! Its acts, in order: what it said of each queue, what it answered past all modules, and which departed
//! members it noted to which link. `Turns` says in which order acts may stand: a Hello waits for as many notes to its
//! link as it names, and a note for its member's Bye.
//! The contract speaks of its acts by these words, and the laws (`laws`) say what follows:
//! what goes out to a peer by a link is, membership for membership, in order. Which items there are is left to the modules,
//! and which members wait for which to the directories.
//!
//! The job of the thread that sends: it pops what the modules give and what the receivers answer, and says it on the
//! links' mouths (`Sender`).
//! It promises one list of acts that its lanes and mouths show: of each queue the items are said in their order, each
//! once; a peer's new membership is greeted only behind the Bye of the old one, since a Hello is held back until so
//! many departures of its link were noted; each Bye is noted to its link's receiver; a datagram that cannot be said is
//! lost alone.
//! It sleeps while nothing is queued, on one bell for its door, its orders and all queues, and looks only where
//! something was pushed (`Hint`): no promise rests on that. After the stop order it ends with a turn over all queues
//! that found nothing more; of this it promises that the Hellos that it then holds back still wait. Which items there
//! are is left to the modules, and who may wait for whom to the house.
#![tactic(auto)]

mod cells;
mod hint;
mod kept;
pub mod laws;
mod queue;
mod run;
mod saying;
mod sender;
mod turn;

pub use hint::Hint;
pub use saying::{say_item, say_reply};
pub use sender::Sender;
