//! What a sender keeps while it runs.
ghost use Rattle.std.specs.Prelude.{◌≡◌, ◌↔◌, IsTrue};
ghost use Rattle.m17_stream.specs.Stream.{SpellsStream};

use m17_stream::{PACKET_BYTES, StreamPacket, write};

/// How many links a number of 8 bits names.
pub(crate) const LINKS: usize = 256;

/// What a sender keeps from turn to turn beside its lanes and mouths.
#[derive(Drop)]
pub(crate) struct Kept {
    /// How many members it noted to each link.
    pub(crate) noted: [u64; LINKS],
    /// The frame that it spelled last: the next listener is mostly told the same one.
    pub(crate) last: Option<SpelledFrame>,
}

/// A frame with the bytes that spell it.
#[derive(Drop)]
pub(crate) struct SpelledFrame {
    pub(crate) packet: StreamPacket,
    pub(crate) bytes: [u8; PACKET_BYTES],
    ghost spelled: { SpellsStream packet bytes },
}

impl SpelledFrame {
    /// Spells a frame.
    pub(crate) fn spell(packet: &StreamPacket) -> SpelledFrame
        ensures { result.packet ≡ packet.now }
    {
        SpelledFrame {
            packet: *packet,
            bytes: write(packet),
        }
    }

    /// Whether it is this frame.
    pub(crate) fn is_of(&self, packet: &StreamPacket) -> bool
        ensures { IsTrue result ↔ (self.now.packet ≡ packet.now) }
    {
        self.packet == *packet
    }
}
