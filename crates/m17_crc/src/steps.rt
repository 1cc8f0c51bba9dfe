//! Steps of the division by tables.
ghost use Rattle.std.specs.Prelude.{◌≡◌, ℕ, ◌%◌, ◌++◌, List, [], ◌∷◌, length};
ghost use Rattle.m17_crc.specs.Crc.{crc_of};

use crate::tables::{
    REMAINDERS_0, REMAINDERS_1, REMAINDERS_2, REMAINDERS_3, REMAINDERS_4, REMAINDERS_5,
    REMAINDERS_6, REMAINDERS_7,
};

/// The CRC before the first byte.
pub(crate) const START: u16 = 0xffff;

// So many bytes go at once, as there are tables.
const STRIDE: usize = 8;

/// The CRC after `bytes` more, from what it is so far.
#[inline]
pub(crate) fn after_bytes(register: u16, bytes: &[u8]) -> u16
    ensures { (fed : List ℕ) → register ≡ crc_of fed → result ≡ crc_of (fed ++ bytes.now) }
{
    let (strides, rest) = bytes.split_at(bytes.len() / STRIDE * STRIDE);
    after_rest(after_strides(register, strides), rest)
}

// The CRC after `bytes` more, which are whole strides.
#[inline]
fn after_strides(register: u16, bytes: &[u8]) -> u16
    requires { length bytes.now % STRIDE ≡ 0 }
    ensures { (fed : List ℕ) → register ≡ crc_of fed → result ≡ crc_of (fed ++ bytes.now) }
{
    let mut register = register;
    for stride in 0..bytes.len() / STRIDE {
        register = after_stride(register, &bytes[stride * STRIDE..stride * STRIDE + STRIDE]);
    }
    register
}

// The CRC after `bytes` more, one at a time.
#[inline]
fn after_rest(register: u16, bytes: &[u8]) -> u16
    ensures { (fed : List ℕ) → register ≡ crc_of fed → result ≡ crc_of (fed ++ bytes.now) }
{
    let mut register = register;
    for byte in bytes {
        register = after_byte(register, *byte);
    }
    register
}

// The CRC after the bytes of one stride: the first two take what the register holds with them, and each byte adds what
// it leaves behind after the bytes that follow it.
#[inline]
fn after_stride(register: u16, bytes: &[u8]) -> u16
    requires { length bytes.now ≡ STRIDE }
    ensures { (fed : List ℕ) → register ≡ crc_of fed → result ≡ crc_of (fed ++ bytes.now) }
{
    let [high, low] = register.to_be_bytes();
    REMAINDERS_7[(high ^ bytes[0]) as usize]
        ^ REMAINDERS_6[(low ^ bytes[1]) as usize]
        ^ REMAINDERS_5[bytes[2] as usize]
        ^ REMAINDERS_4[bytes[3] as usize]
        ^ REMAINDERS_3[bytes[4] as usize]
        ^ REMAINDERS_2[bytes[5] as usize]
        ^ REMAINDERS_1[bytes[6] as usize]
        ^ REMAINDERS_0[bytes[7] as usize]
}

// The CRC after one byte more.
#[inline]
fn after_byte(register: u16, byte: u8) -> u16
    ensures { (fed : List ℕ) → register ≡ crc_of fed → result ≡ crc_of (fed ++ byte ∷ []) }
{
    let [high, low] = register.to_be_bytes();
    REMAINDERS_0[(high ^ byte) as usize] ^ (u16::from(low) << 8)
}
