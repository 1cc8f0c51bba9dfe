//! The house: the directory of each link, the modules and the mouths, wired together. A `Run` does that in one thread for
//! one link that was heard already, entry by entry, with lists in place of queues; `replay_plain` answers the verdicts of
//! all entries. Both promise that what they tell of each entry, and the tallies of what was said, are those of the one
//! replay of the plan over what was heard (`specs/Replay.antt`): places given as a patient reflector gives them, what the
//! link routes given to the modules, and what they give said. They stand on the public contracts of directory, modules,
//! packets and mouths alone; what each of these does is theirs. Reading a trace and printing are left to the crates above.
#![tactic(auto)]

mod choice;
pub mod laws;
mod replay;
mod rooms;
mod run;
mod stage;
mod voice;

pub use replay::replay_plain;
pub use run::Run;
