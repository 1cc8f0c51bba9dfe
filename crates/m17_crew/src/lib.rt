//! Jobs for threads, and the crews that start them: what a job needs and does (`Work`), a job that was started and can
//! be joined (`Running`), and what starts it or refuses to (`Crew`: `StdCrew`, and `RefusingCrew` for tests).
//! It promises that a joined job has done what its relation says, that a refused job comes back as it was, and that
//! each refused start is counted and nothing else is. Many jobs of one type are started and joined in order
//! (`start_all`, `join_all`). `begin` starts one by no crew, in a thread of a given kind.
//! Which jobs there are, what they say to one another and when they end is left to the crates above: a job waits on
//! lanes of its own, and whoever starts a job has to join it.
#![tactic(auto)]

mod crew;
pub mod laws;
mod many;
mod order;
mod refusing_crew;
mod running;
mod std_crew;
mod work;

pub use crew::{Crew, Starter};
pub use many::{join_all, start_all};
pub use order::Order;
pub use refusing_crew::RefusingCrew;
pub use running::{Running, begin};
pub use std_crew::StdCrew;
pub use work::Work;
