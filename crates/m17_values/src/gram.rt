ghost use Rattle.std.specs.Prelude.{◌≡◌, ◌≤◌, length, take};

use arrayvec::ArrayVec;
use std::marker::Model;

/// The most bytes of a datagram that are kept. No packet has so many.
const GRAM_BYTES: usize = 64;

/// The bytes of a datagram, its first 64 where there are more: no packet has so many. Contracts see the list of bytes.
#[derive(Clone, Debug, PartialEq, Eq, Drop)]
pub struct Gram(ArrayVec<u8, GRAM_BYTES>);

impl Model for Gram {
    ghost use Rattle.std.specs.Prelude.{ℕ, List};

    ghost Value = { List ℕ };

    ghost view = { λ g. g.0.items };

    ghost inverse = { λ bytes. record { 0 = record { items = bytes } } };
}

impl Gram {
    /// The datagram of these bytes, or of the first 64 where there are more.
    pub fn of(bytes: &[u8]) -> Gram
        ensures first { result ≡ take 64 bytes.now }
    {
        let mut gram = ArrayVec::new();
        let kept = first_of(bytes);
        gram.try_extend_from_slice(kept).unwrap();
        Gram(gram)
    }

    /// Its bytes, 64 at the most.
    pub fn bytes(&self) -> &[u8]
        ensures same { result.now ≡ self.now }
        ensures short { length result.now ≤ 64 }
    {
        self.0.as_slice()
    }
}

/// The bytes, or the first 64 where there are more.
fn first_of(bytes: &[u8]) -> &[u8]
    ensures first { result.now ≡ take 64 bytes.now }
    ensures short { length result.now ≤ 64 }
{
    if bytes.len() > GRAM_BYTES {
        &bytes[..GRAM_BYTES]
    } else {
        bytes
    }
}
