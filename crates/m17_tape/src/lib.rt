//! A tape: cells by number, of which few are filled. It keeps a note for each cell that is, in the order of their numbers,
//! in room that is reserved for one in each cell, so memory is touched only for what is filled.
//! It promises what a list of cells does: a cell has what was put into it last, and nothing before; nothing is lost, and
//! nothing stands behind the last cell. After `make` it wants no memory: `fill` refuses nothing. What a cell means is left to
//! who fills it.
#![tactic(auto)]

mod notes;
mod tape;

pub use tape::Tape;
