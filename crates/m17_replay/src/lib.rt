//! A replay over threads: what one link heard already is run by a patient reflector, which hears it from an ear with that
//! script, keeps no trace and no book, and says what it says on a mouth that keeps tallies. `replay_over_threads` promises
//! that its verdicts, and the tallies of what was said, are those of a replay of the plan over what was heard in which
//! whatever free place is given to who asks (`IsFreelyReplayed`); that these are the plain replay's is a law of the house
//! (`m17_house::laws::answers_are_free_of_places`). It stands on the headline of `m17_reflect::reflect` and on laws of the
//! crates below alone. Reading a trace and printing are left to the crates above.
//!
//! The command `replay`: a trace of what a link heard comes in, and what a reflector would have done goes out: a line
//! for each entry, in one thread as soon as it is heard, or one page of counts. It promises the exact text for the
//! bytes that came in, that an input which is no trace is refused with its place and reason before anything is written,
//! and that a failure is told exactly where a device failed. The last line of the run and its status are left to the
//! program.
#![tactic(auto)]

mod devices;
mod replay_run_laws;
mod replay_run_outcomes;
mod replaying;

pub use replay_run_outcomes::Outcomes;
pub use replaying::{Refused, Replay};

mod counts;
mod ending;
mod hearing;
mod judging;
mod kind;
pub mod laws;
mod lines;
mod peers;
mod playing;
mod printer;
mod reading;
mod reason;
mod replay_command;
mod summary;
mod summary_lines;
mod verdict_line;

pub use counts::Counts;
pub use ending::ReplayEnding;
pub use kind::kind_of;
pub use reason::TraceReason;
pub use replay_command::{replay, replay_over_threads};
pub use summary_lines::{make_entries_line, make_kind_line, make_peer_line};
pub use verdict_line::make_verdict_line;
