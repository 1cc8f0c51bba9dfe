//! The CRC of bytes that come in pieces.
ghost use Rattle.std.specs.Prelude.{◌≡◌, ℕ, ◌++◌, List, []};
ghost use Rattle.m17_crc.specs.Crc.{crc_of};

use crate::steps::{START, after_bytes};
use std::marker::Model;

/// The CRC of bytes that come in pieces. Contracts see the CRC of what was fed so far, a number below 2^16. M17 Protocol
/// Specification, CRC.
#[derive(Clone, Copy)]
pub struct Crc {
    register: u16,
}

impl Model for Crc {
    ghost Value = { ℕ };

    ghost view = { λ crc. crc.register };

    ghost inverse = { λ register. record { register = register } };
}

impl Crc {
    /// The CRC of no bytes yet. M17 Protocol Specification, CRC.
    pub fn new() -> Crc
        ensures { result ≡ crc_of [] }
    {
        Crc { register: START }
    }

    /// Goes on with `bytes`, which follow those that were fed before: the CRC is then that of all of them joined. M17
    /// Protocol Specification, CRC.
    pub fn feed(&mut self, bytes: &[u8])
        ensures { (fed : List ℕ) → self.old ≡ crc_of fed → self.new ≡ crc_of (fed ++ bytes.now) }
    {
        self.register = after_bytes(self.register, bytes);
    }

    /// The CRC of the bytes that were fed so far: 16 bits. M17 Protocol Specification, CRC.
    pub fn value(&self) -> u16
        ensures { result ≡ self.now }
    {
        self.register
    }
}
