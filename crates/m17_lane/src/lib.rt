//! Lanes: bounded queues between threads, with several producers and one consumer, whose contents are known. `make`
//! gives the ends, which may go to other threads; `finish` takes them back, from whichever threads they come.
//! It promises, for any number of producers and every schedule: each producer's items are its part of one order, in
//! which it pushed them, what was popped is the first part of that order, and what came back from a full lane is known
//! too. A wait sleeps until the other end rings (`Bell`), and an end whose partner is awake makes no system call. A bell
//! of very many lanes has marks, which tell its consumer where to look. An item that can wait (`push_quietly`) doesn't wake
//! a consumer that dozes (`pop_dozing`), until some are there. Who pushes many items at once may push them unrung
//! (`push_unrung`, `try_push_unrung`) and then rouse the consumer once (`rouse`).
//! That a wait ends, and what lane a thread waits on, is left to the crates above: no proof sees it.
//! The rule that each step keeps is `IsLane` in `specs/Rule.antt`; the words of the contracts stand in `specs/Ends.antt`
//! and `specs/Orders.antt`.
//!
//! Rows and grids of ends of lanes, and how a job is started: what the threads' jobs have in common. A job has a row of
//! ends, one for each module, place or link, and pushes or pops at a place of it (`push_at`, `push_quietly_at`,
//! `push_unrung_at`, `try_push_at`, `pop_at`), or at a place of a row of rows (`pop_in`). Many lanes are made and their ends
//! dealt out to the jobs, one column of ends for each producer (`lay`, `deal`), and they come back together, one trail for
//! each lane (`collect`, `finish_each`, and `finish_row` for lanes of one producer). Lanes that share a bell are laid on it
//! one by one, each with a mark of its own (`MarkedBell`).
//! It promises of the whole row what came to each end: one equation on all ends, so that no other end of the row has
//! moved, and which lane, number, capacity and producers an end has stays. The equations compose by the laws in `rows_laws`.
//! Each end keeps its place: the trail of a lane is made of the ends that stood at that lane's place in the columns, in the
//! order of the columns, so its order is one interleaving of what they pushed (`rows_laws::order_is_interleaving`).
//! A job first waits for its order (`starts`): Go, or Quit, with nothing popped behind it. It counts what it takes in 64
//! bits (`count_one`), and past them takes no more. Only `lay` and a bell allocate: what comes back goes into room that was
//! there before. What goes through the lanes, which jobs have them, and when a job ends, is left to the jobs and to
//! `m17_reflect`.
#![tactic(auto)]

mod bell;
mod lane;
pub mod laws;
mod making;
mod marks;
mod popper;
mod pusher;
mod room;
mod rule;
mod trail;

pub use bell::{Announced, Bell};
pub use making::{make, make_marked, make_one, make_one_marked, make_one_with, make_with};
pub use popper::Popper;
pub use pusher::Pusher;
pub use trail::{Trail, finish, finish_one};

mod columns;
mod count;
mod laying;
mod marked_bell;
mod row;
pub mod rows_laws;
mod start;
mod trails;

pub use columns::{collect, deal};
pub use count::count_one;
pub use laying::{Laid, lay};
pub use marked_bell::MarkedBell;
pub use row::{pop_at, pop_in, push_at, push_quietly_at, push_unrung_at, try_push_at};
pub use start::starts;
pub use trails::{finish_each, finish_row};
