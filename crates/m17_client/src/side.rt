ghost use Rattle.std.specs.Prelude.{◌≡◌, ◌↔◌, IsTrue};
ghost use Rattle.m17_client.specs.Sides.{opposite};

use crate::SAID_BYTES;
use arrayvec::ArrayVec;

/// A side of a bridge.
#[derive(Clone, Copy, Debug, PartialEq, Eq)]
pub enum Side {
    /// The module here.
    Near,
    /// The module of the other reflector.
    Far,
}

impl Side {
    /// The other side.
    pub fn opposite(self) -> Side
        ensures { result ≡ opposite self }
    {
        match self {
            Side::Near => Side::Far,
            Side::Far => Side::Near,
        }
    }
}

/// A datagram to say on a side, to its reflector.
#[derive(Clone, Debug, Drop)]
pub struct Cross {
    /// The side.
    pub side: Side,
    /// The bytes of the datagram.
    pub bytes: ArrayVec<u8, SAID_BYTES>,
}

impl Default for Cross {
    /// The blank of a place that is not used: a datagram without bytes.
    fn default() -> Cross {
        Cross {
            side: Side::Near,
            bytes: ArrayVec::new(),
        }
    }
}
