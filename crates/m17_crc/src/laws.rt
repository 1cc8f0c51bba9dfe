ghost use Rattle.std.specs.Prelude.{ℕ, List, ◌<◌, ◌^◌};
ghost use Rattle.m17_crc.specs.Crc.{crc_of};

/// The CRC has 16 bits. M17 Protocol Specification, CRC.
#[inline]
pub fn crc_has_16_bits()
    ensures { (bytes : List ℕ) → crc_of bytes < 2 ^ 16 }
{}
