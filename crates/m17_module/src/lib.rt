//! A recording of a parrot module: the frames of one stream are held, and played back to who sent them once the stream is
//! closed. It states what each call makes of the recording (`specs/Recording.antt`), and promises that of `Parrot`: which
//! frames are held, when the next is due, and what it is then. Nothing allocates after `make`. When a recording is opened,
//! fed and closed, and to whom an echo goes, is left to the crates above.
//!
//! The core of a module: what each event gives to whom. It states that once, over the whole list of events, by looking
//! back through it by position (`specs/Seats.antt`, `Items.antt`; what a parrot module plays back in `Echoes.antt`), and
//! promises that `Module::step`, which keeps a seat and a frame for each place and a parrot's recording, gives exactly
//! that, answers the floor rule's verdict, and goes on standing for the list (`specs/StandsFor.antt`). `laws` has what
//! follows from the definitions alone. Nothing allocates after `make`.
//! Which events come, in which order, and how an item is said to a peer, is left to the crates above.
#![tactic(auto)]

mod parrot;

pub use parrot::{FIRST_AFTER_MS, FRAME_EVERY_MS, Kept, MOST_FRAMES, Parrot};

mod basket;
pub mod laws;
mod recorder;
mod room;
mod seat;
mod state;
mod telling;

pub use basket::{BASKET_ROOM, Basket};
pub use room::MOST_PLACES;
pub use seat::Seat;
pub use state::{Module, PING_EVERY_MS};
