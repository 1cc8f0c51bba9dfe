ghost use Rattle.std.specs.Prelude.{◌≡◌, ◌+◌, ◌*◌, ◌<◌, ◌≤◌, [], ◌∷◌, ◌++◌, length, decimal};
ghost use Rattle.m17_print.specs.Line.{room, hex_digits, hex_of};

use arrayvec::ArrayVec;
use itoa::Buffer;
use std::marker::Model;

/// How many bytes a line may have, its line feed included.
const ROOM: usize = 224;

const UPPER_DIGITS: &[u8; 16] = b"0123456789ABCDEF";

/// A line that is being made, in a buffer that is used again. Contracts see its bytes so far.
#[derive(Debug, Drop)]
pub struct Line {
    bytes: ArrayVec<u8, ROOM>,
}

impl Model for Line {
    ghost use Rattle.std.specs.Prelude.{List, ℕ};

    ghost Value = { List ℕ };

    ghost view = { λ l. l.bytes.items };
}

impl Line {
    /// An empty line.
    pub fn new() -> Line
        ensures { result ≡ [] }
    {
        Line {
            bytes: ArrayVec::new(),
        }
    }

    /// Begins anew.
    #[inline]
    pub fn clear(&mut self)
        ensures { self.new ≡ [] }
    {
        self.bytes.clear();
    }

    /// The bytes so far.
    #[inline]
    pub fn bytes(&self) -> &[u8]
        ensures value { result.now ≡ self.now }
        ensures fits { length result.now ≤ room }
    {
        self.bytes.as_slice()
    }

    /// Appends a byte.
    #[inline]
    pub fn push_byte(&mut self, byte: u8)
        requires { length self.old < room }
        ensures { self.new ≡ self.old ++ byte ∷ [] }
    {
        self.bytes.push(byte);
    }

    /// Appends a text.
    #[inline]
    pub fn push_text(&mut self, text: &str)
        requires { length self.old + length text.now ≤ room }
        ensures appended { self.new ≡ self.old ++ text.now }
        ensures longer { length self.new ≡ length self.old + length text.now }
    {
        self.bytes.try_extend_from_slice(text.as_bytes()).unwrap();
    }

    /// Appends a number in decimal, without leading zeros.
    #[inline]
    pub fn push_number(&mut self, number: u64)
        requires { length self.old + 20 ≤ room }
        ensures appended { self.new ≡ self.old ++ decimal number }
        ensures longer { length self.new ≤ length self.old + 20 }
    {
        let mut digits = Buffer::new();
        self.bytes
            .try_extend_from_slice(digits.format(number).as_bytes())
            .unwrap();
    }

    /// Appends bytes as upper-case hex digits, two for each.
    pub fn push_hex(&mut self, bytes: &[u8])
        requires { length self.old + 2 * length bytes.now ≤ room }
        ensures appended { self.new ≡ self.old ++ hex_of bytes.now }
        ensures longer { length self.new ≡ length self.old + 2 * length bytes.now }
    {
        for byte in bytes {
            self.push_hex_byte(*byte);
        }
    }

    // Appends one byte as two hex digits.
    #[inline]
    fn push_hex_byte(&mut self, byte: u8)
        requires { length self.old + 2 ≤ room }
        ensures { self.new ≡ self.old ++ hex_digits byte }
    {
        self.bytes.push(UPPER_DIGITS[(byte / 16) as usize]);
        self.bytes.push(UPPER_DIGITS[(byte % 16) as usize]);
    }
}
