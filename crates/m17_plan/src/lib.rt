//! How a reflector is run (`Plan`): its name, its modules and which of them are parrots, how many places there are,
//! whether it waits rather than misses, and how long one may talk. It promises nothing of its own; what a plan comes to
//! for each link and each module stands in `specs/Planned.antt`, which the replay in one thread and the reflector over
//! threads both speak of.
#![tactic(auto)]

mod plan;

pub use plan::Plan;
