use crate::ModuleLetter;
use m17_callsign::CallAddress;
use m17_stream::StreamPacket;

/// A control packet. Its addresses have callsigns, and its modules are A to Z. The lengths and forms are this
/// profile's.
#[derive(Clone, Copy, Debug, PartialEq, Eq)]
pub enum Control {
    /// A peer asks to join a module, 11 bytes.
    Conn {
        from: CallAddress,
        module: ModuleLetter,
    },
    /// A peer asks to join a module to listen only, 11 bytes.
    Lstn {
        from: CallAddress,
        module: ModuleLetter,
    },
    /// The peer has joined, 4 bytes.
    Ackn,
    /// The peer was turned away, 4 bytes.
    Nack,
    /// The reflector asks whether a peer is there, 10 bytes.
    Ping {
        from: CallAddress,
    },
    /// A peer is there, 10 bytes.
    Pong {
        from: CallAddress,
    },
    /// A peer or the reflector ends a membership, 10 bytes with a From, or acknowledges that, 4 bytes without.
    Disc {
        from: Option<CallAddress>,
    },
}

/// What a datagram may hold. M17 Protocol Specification, IP networking.
#[derive(Clone, Copy, Debug, PartialEq, Eq)]
pub enum Packet {
    /// A voice frame.
    Stream(StreamPacket),
    /// A control packet.
    Control(Control),
}

/// Why bytes are no packet: the first reason that fits, in this order.
#[derive(Clone, Copy, Debug, PartialEq, Eq)]
pub enum Refusal {
    /// No packet has so many bytes; 4,294,967,295 for more than that.
    Length(u32),
    /// The first four bytes, which aren't a magic of packets of this length.
    Magic([u8; 4]),
    /// The From field, bytes 4 to 9, which has no callsign.
    Address(u64),
    /// Byte 10, which isn't A to Z.
    Module(u8),
    /// The CRC field `found` in bytes 52 and 53 isn't the CRC of bytes 0 to 51, which is `expected`.
    Crc { found: u16, expected: u16 },
}
