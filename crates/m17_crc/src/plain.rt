//! The CRC bit by bit, as its definition divides: slow, and plain enough to compare the tables with.
ghost use Rattle.std.specs.Prelude.{◌≡◌, ℕ, ◌<◌, ◌++◌, List, [], ◌∷◌};
ghost use Rattle.m17_crc.specs.Crc.{crc_of};
ghost use Rattle.m17_crc.specs.Register.{after_bit, after_byte};

use crate::steps::START;

// The low 16 of the divisor's 17 bits: the polynomial without its x^16.
const POLYNOMIAL: u16 = 0x5935;

/// The CRC of `bytes`, divided bit by bit: 16 bits, the most significant first, as the last two bytes of a packet carry
/// it. It is for tests and comparisons; `crc` gives the same number faster. M17 Protocol Specification, CRC.
pub fn crc_by_division(bytes: &[u8]) -> u16
    ensures { result ≡ crc_of bytes.now }
{
    let mut remainder = START;
    for byte in bytes {
        remainder = after_byte(remainder, *byte);
    }
    remainder
}

// The remainder after the 8 bits of one more byte, the most significant first.
fn after_byte(remainder: u16, byte: u8) -> u16
    ensures { result ≡ after_byte remainder byte }
{
    let mut remainder = remainder;
    for place in 0..8u8 {
        remainder = after_bit(remainder, u16::from(byte >> (7 - place) & 1));
    }
    remainder
}

// The remainder after one more bit: the divisor is subtracted where the bit that leaves and the bit that comes differ.
fn after_bit(remainder: u16, bit: u16) -> u16
    requires { bit < 2 }
    ensures { result ≡ after_bit remainder bit }
{
    if remainder >> 15 == bit {
        remainder << 1
    } else {
        (remainder << 1) ^ POLYNOMIAL
    }
}
