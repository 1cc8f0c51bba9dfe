ghost use Rattle.std.specs.Prelude.{◌≡◌, ℕ, ◌<◌, ◌^◌, ◌+◌, ◌*◌, ◌%◌, ◌≤◌, List, ◌++◌, decimal, drop, length};
ghost use Rattle.m17_peer.specs.Reading.{EndsNumber};

use std::marker::Model;

/// The most digits of a number of 16 bits.
const MAX_DIGITS: usize = 5;

/// What is left of a text that is read byte by byte.
#[derive(Drop)]
pub struct Rest<'a> {
    bytes: &'a [u8],
}

impl<'a> Model for Rest<'a> {
    ghost use Rattle.std.specs.Prelude.{List, ℕ};

    ghost Value = { List ℕ };

    ghost view = { λ r. r.bytes.now };
}

impl<'a> Rest<'a> {
    /// All bytes of a text.
    pub fn of(bytes: &'a [u8]) -> Rest<'a>
        ensures { result ≡ bytes.now }
    {
        Rest { bytes }
    }

    /// Passes over a byte.
    pub fn pass(&mut self)
        ensures { self.new ≡ drop 1 self.old }
    {
        if let Some((_, rest)) = self.bytes.split_first() {
            self.bytes = rest;
        }
    }

    /// The number that stands here, of a text that has one; any number of another text.
    pub fn number(&mut self) -> u16
        ensures { (n : ℕ) (rest : List ℕ) → n < 2 ^ 16 → EndsNumber rest
            → self.old ≡ decimal n ++ rest → (result ≡ n) × (self.new ≡ rest) }
    {
        let bytes = self.bytes;
        let (number, len) = first_number(bytes);
        self.bytes = &bytes[len..];
        number
    }
}

// The number that a text begins with, and how many digits it has.
fn first_number(bytes: &[u8]) -> (u16, usize)
    ensures within { result.1 ≤ length bytes.now }
    ensures number { (n : ℕ) (rest : List ℕ) → n < 2 ^ 16 → EndsNumber rest
        → bytes.now ≡ decimal n ++ rest → (result.0 ≡ n) × (result.1 ≡ length (decimal n)) }
{
    let mut value = 0u32;
    for (i, byte) in bytes.iter().enumerate() {
        if i == MAX_DIGITS {
            return (low_half(value), i);
        }
        if !byte.is_ascii_digit() {
            return (low_half(value), i);
        }
        value = value * 10 + u32::from(*byte - b'0');
    }
    (low_half(value), bytes.len())
}

// The low 16 bits.
fn low_half(value: u32) -> u16
    ensures { result ≡ value % 2 ^ 16 }
{
    (value % 65536) as u16
}
