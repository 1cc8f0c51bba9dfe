//! The floor of a module: who may speak. It states the floor rule once, over the whole list of what happened, joins and
//! leaves included, and promises that `Floor::judge` and `Floor::left`, which keep one frame and one more for each
//! member, give that rule's verdicts. `laws` has what follows from the rule alone, and what one act more makes of what
//! is looked up; `plain` is the rule as it is stated, slow, to compare with. The table of verdicts is
//! `specs/Rule.antt`; which frames it looks at, for a whole list, is `specs/Floor.antt`; what the small state stands
//! for is `specs/StandsFor.antt`.
//! Who is a member, and to whom a packet goes, is left to the crates above.
#![tactic(auto)]

mod act;
mod floor;
pub mod laws;
pub mod plain;
mod rule;
mod verdict;

pub use act::{Act, ActKind};
pub use floor::{FLOOR_TIMEOUT_MS, Floor, Last, STREAM_MEMORY_MS};
pub use rule::Rule;
pub use verdict::Verdict;
