//! What a run of the reflector hands back.

use m17_control::{Event, Item};
use m17_directory::LinkVerdict;
use m17_floor::Verdict;
use m17_lane::Trail;
use m17_roll::RollEnd;
use m17_tape::Tape;

/// What a run that was carried out hands back: the devices, in the order handed in, and what went through the threads.
/// Links and modules are numbered from 0, modules in order of their letters.
#[derive(Drop)]
pub struct Returned<E, M, B> {
    /// The receiving half of each link.
    pub ears: Vec<E>,
    /// The sending half of each link.
    pub mouths: Vec<M>,
    /// What each link heard, as it was written.
    pub traces: Vec<B>,
    /// What became of the events of each module, as it was written.
    pub books: Vec<B>,
    /// The finished inbox of each module.
    pub trails: Vec<Trail<Event>>,
    /// For each module the finished queues of its places.
    pub queues: Vec<Vec<Trail<Item>>>,
    /// The closed roll: it has a seat for each link, in their order, and then one for each module.
    pub roll: RollEnd,
    /// How many items of each module were left out at full queues; a count stays at 2^64 - 1.
    pub missed: Vec<u64>,
    /// How many packets each module admitted.
    pub admitted: Vec<u64>,
    /// The verdicts of each link's first entries.
    pub link_tapes: Vec<Vec<Option<LinkVerdict>>>,
    /// Each module's verdicts on the packets of the first entries of link 0.
    pub tapes: Vec<Tape<Verdict>>,
    /// Whether some link ended by 16 failures of its socket in a row.
    pub lost: bool,
    /// Whether a write of some trace or book failed.
    pub book_failed: bool,
}

/// Why nothing was run.
#[derive(Clone, Copy, Debug, PartialEq, Eq)]
pub enum HouseRefusal {
    /// A job could not be started.
    Crew,
    /// There was no memory for the lanes and the tables.
    NoMemory,
}

/// What comes back where nothing was run: the devices as they were handed in, in their order.
#[derive(Drop)]
pub struct Refused<E, M, B> {
    /// Why nothing was run.
    pub why: HouseRefusal,
    /// The receiving half of each link.
    pub ears: Vec<E>,
    /// The sending half of each link.
    pub mouths: Vec<M>,
    /// Where each link's entries were to be written.
    pub traces: Vec<B>,
    /// Where each module's events were to be recorded.
    pub books: Vec<B>,
}
