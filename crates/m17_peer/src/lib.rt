//! The texts of peers, as the program prints and reads them: `10.0.0.1:17000`, and an IPv6 address in brackets with
//! all its digits. It promises that `text` gives the one text of a peer, and that `read` takes exactly the texts that
//! `text` gives. Names of hosts, and where the texts stand, are left to others.
#![tactic(auto)]

pub mod laws;
mod reading;
mod rest;
mod writing;

pub use reading::read;
pub use writing::text;
