//! What stands before an ear or behind a mouth, as an ear or a mouth over any other one: fill and guard before ears, a pace
//! behind mouths. What is heard and said is left to the crates above.
//!
//! The fill is for ears that fill in the CRC of stream packets whose sender left it at 0, as most hotspots do. It
//! promises that a `Filling`, an ear over another one, tells what the other one tells, but that a
//! datagram of 54 bytes that begins with `M17 ` and whose last two bytes are 0 has the CRC of its
//! first 52 bytes there, which makes it a stream packet; that every stream packet is heard as it
//! came; and that an ear that fills nothing changes nothing. Whether CRCs are filled in is left to
//! the crates above.
//!
//! The guard ends what goes round. A guarded ear (`Guarded`)
//! tells what the ear behind it does, but in place of an echo, that nothing came: a stream packet
//! whose very same bytes the same peer sent within ten seconds before, and a packet with other bytes
//! since. `Guards` have the memory of such ears, taken beforehand.
//!
//! The pace bounds what one peer is sent. A paced mouth (`Paced`) lets
//! through to one peer at most so many stream packets in any second, by the moments that its clock
//! tells; what is over fails, and nothing is said. All other datagrams pass uncounted. `LinkPaces`
//! have the memory of such mouths, taken beforehand. What becomes of a failure is left to the crates
//! above, and so are ports that hand out such ears and mouths.
#![tactic(auto)]

pub mod fill_laws;
mod filled;
mod filling;

pub use filling::{FillLabel, Filling};

mod bytes;
mod guarded;
mod guards;
mod memory;

pub use guarded::{GuardLabel, Guarded};
pub use guards::Guards;

mod clock;
mod frame;
mod link_paces;
mod moments;
mod pace;
pub mod pace_laws;
mod paced;
mod place;
mod places;

pub use clock::{PaceClock, Stopwatch};
pub use link_paces::LinkPaces;
pub use paced::{PaceLabel, Paced};
