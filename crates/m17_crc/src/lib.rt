//! The CRC of M17 packets: 16 bits, the polynomial x^16 and 0x5935, from FFFF, the most significant bit first. It
//! promises the remainder of a long division, for any bytes, at once or in pieces. Where the CRC stands in a packet is
//! left to the crates above.
#![tactic(auto)]

ghost use Rattle.std.specs.Prelude.{◌≡◌};
ghost use Rattle.m17_crc.specs.Crc.{crc_of};

pub mod laws;
mod pieces;
pub mod plain;
mod steps;
mod tables;

pub use pieces::Crc;
use steps::{START, after_bytes};

/// The CRC of `bytes`: 16 bits, the most significant first, of which a packet carries the high byte before the low one.
/// It is FFFF for no bytes at all. M17 Protocol Specification, CRC.
pub fn crc(bytes: &[u8]) -> u16
    ensures { result ≡ crc_of bytes.now }
{
    after_bytes(START, bytes)
}
