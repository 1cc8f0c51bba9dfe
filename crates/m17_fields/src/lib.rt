//! Big-endian fields of packets and files: numbers of 16, 32, 48 and 64 bits at a place of a list of bytes. It promises
//! that what is read at a place is the number whose bytes stand there, that writing puts them there and changes nothing
//! else, and, by its laws, that numbers and their bytes give each other. It also has the statement that bytes have
//! exactly one reading, which the readers of packets share. Where a field stands is left to the crates above.
#![tactic(auto)]

pub mod laws;
mod reading;
mod writing;

pub use reading::{get_16, get_32, get_48, get_64};
pub use writing::{bytes_48, put};
