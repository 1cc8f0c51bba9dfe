//! The reflector over books that are kept as they are, or, where a live board is shown, post what is written to them: then a
//! watch in a thread of its own writes what they posted, ten times in a second. When the reflector has ended, the watch is told
//! to quit, and the board ends with a line of all that was posted for each module whose last line says less.
//! It promises that the headline holds of that run as of any other, with books that say at which poster they post, if at any;
//! that the devices come back as they were handed in; and that the lines show what stands whole in the bytes of the books,
//! module by module, which is the records of the modules' trails. What runs between the threads is left to `m17_reflect`, what
//! a line says to `m17_board`.
#![tactic(auto)]

mod board;
mod keeping;
mod kept;
mod putting;
mod running;

pub use board::{Board, make_board};
pub use kept::{Kept, KeptLabel};
pub use running::{OnBoard, RefusedOnBoard, reflect_on_board};
