//! The receiver: the job of a link's thread. It hears what comes to the link's socket, entry by entry, and does with
//! each what the link's directory makes of it: events go to the inboxes of the modules, replies to the door, and who
//! asks for a place gets one from the roll.
//! It promises, of whatever is heard up to the entry that ends the link: each inbox got exactly what the link routes to
//! its module, in order, each event once; the claims are the roll's, and where it is patient of places that no other
//! known peer has; a peer that comes again is to be greeted only behind the notes of all that it was before; and the
//! trace and the tape hold what was heard and what became of it.
//! Where a lane is full it waits asleep. What can wait it pushes quietly: Ticks, and in a patient run packets too. What
//! the modules and the sender do with what it pushes is left to their jobs, and when it starts and who joins it to whoever
//! starts it.
#![tactic(auto)]

mod claim;
mod entry;
mod laws;
mod notes;
mod posting;
mod receiver;
mod tape;
mod trace;

pub use receiver::Receiver;
