//! The roll: one table of places that all links share. A place is free or taken, and counts its memberships. Each
//! thread has a seat, and claims places and gives them back by single compare-exchanges; nothing waits, and nothing
//! allocates after `make`. It promises that no member is claimed twice, whichever threads claim, that a claim which gets
//! none saw each place taken that it tried, and that `close` shows all claims and givings back as one run of the table.
//! The rule that all steps keep is `specs/Rule.antt`; what a caller needs is `specs/Seat.antt` and `specs/Run.antt`.
//! Who asks for a place, and what a member may do, is left to the crates above.
#![tactic(auto)]

pub mod laws;
mod rule;
mod seat;

pub use rule::Sighting;
pub use seat::{RollEnd, RollSeat, close, make};
