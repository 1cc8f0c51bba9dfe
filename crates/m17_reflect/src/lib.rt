//! The reflector over threads (`reflect`): each link's receiver, each module's worker and the one sender, from the devices that
//! are handed in to those that come back. It has four parts, in the order of a run:
//! - `prepare` makes all that a run needs but its devices: the lanes, the roll, the links' directories, the modules, the tapes,
//!   and room for what comes back. It may find no memory, and no device has moved then. `staff` puts the devices into the
//!   jobs, and can't fail. Nothing but a start of a job has to be allocated from then on.
//! - `launch` starts three groups of jobs, tells them to go, and joins them; where the crew refuses a start, all that ran quit.
//!   No job is joined before all were told (`Group::join`), and those that send are told to stop only where the others are
//!   joined (`stop_last`); no clause that a caller sees says when.
//! - The jobs are taken apart (`part_receivers`, `part_workers`), their lanes are finished (`finish_rows`), and what the sender
//!   had not said yet is said, in one thread (`say_rest`). Nothing there allocates or fails.
//! - `reflect` puts the clauses of these together, by these alone.
//!
//! It promises, in every run that returns, under every interleaving, what `specs/Headline.antt` says: one trail for each
//! module; what was admitted, taped and written; the places claimed and given back; what each queue carries and each mouth
//! says; who found no place; and which links were lost. Where nothing was run all devices come back as they were.
//! That a run returns is left to the devices: it waits for its threads. What the jobs do is left to their crates.
#![tactic(auto)]

mod bare_receivers;
mod bare_sender;
mod bare_workers;
mod finishing;
mod gather;
mod group;
mod jobs;
mod lanes;
pub mod laws;
mod letters;
mod lines;
mod parted;
mod receivers;
mod rest;
mod returned;
mod rooms;
mod running;
mod site;
mod staffing;
mod starts;
mod vectors;
mod workers;

pub use finishing::finish_rows;
pub use group::Group;
pub use receivers::{ReceiverParts, part_receivers};
pub use rest::say_rest;
pub use returned::{HouseRefusal, Refused, Returned};
pub use rooms::{LinkRooms, ModuleRooms, Rooms, TrailRooms};
pub use running::reflect;
pub use site::{Site, Staffed, prepare};
pub use staffing::staff;
pub use starts::launch;
pub use workers::{WorkerParts, part_workers};
