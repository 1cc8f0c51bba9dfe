//! The worker: the job of a module's thread. It pops the events of its module's inbox, lets the module decide what each
//! gives to whom, and offers that to the queues of the module's places (`LaneOffers`), gives the places of those that
//! left back to the roll, and writes the module's book and its tape of verdicts.
//! It promises, of whatever was popped up to the last link's Stop: the module stands for these events; every item that
//! they give was offered, in order, and only what may be missed was left out, counted, at a queue that was full; a
//! place is given back for each Bye that was offered, once; book and tape hold what was decided.
//! It waits asleep for events and for room in a queue; a few Ticks alone don't wake it, unless its module is a parrot. It
//! wakes the sender once for all frames that an event gives, and in a patient run once for all events that had come.
//! What events come is left to the receivers, what becomes of what is queued to the sender, and when it starts and who
//! joins it to whoever starts it.
#![tactic(auto)]

mod book;
mod gifts;
pub mod laws;
mod offers;
mod records;
mod stops;
mod tape;
mod turn;
mod worker;

pub use offers::{LaneOffers, Offered};
pub use worker::Worker;
