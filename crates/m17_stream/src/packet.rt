ghost use Rattle.std.specs.Prelude.{◌<◌};

use m17_lsd::Lsd;

/// How many frame numbers there are: after 32,767 comes 0.
pub const FRAME_NUMBERS: u16 = 32_768;

/// How many bytes a stream packet has.
pub const PACKET_BYTES: usize = 54;

/// What every stream packet begins with: `M17 `.
pub(crate) const MAGIC: [u8; 4] = [0x4d, 0x31, 0x37, 0x20];

/// Where the stream id begins.
pub(crate) const SID_AT: usize = 4;

/// Where the link setup data begin.
pub(crate) const LSD_AT: usize = 6;

/// Where the field of the frame begins: its number and the end bit.
pub(crate) const FIELD_AT: usize = 34;

/// Where the payload begins.
pub(crate) const PAYLOAD_AT: usize = 36;

/// Where the CRC begins: it is the CRC of all the bytes before it.
pub(crate) const CRC_AT: usize = 52;

/// A stream packet: a voice frame of 40 ms and whose it is. M17 Protocol Specification, IP networking.
#[derive(Clone, Copy, Debug, PartialEq, Eq)]
pub struct StreamPacket {
    /// The stream id, big-endian in bytes 4 and 5.
    pub sid: u16,
    /// The link setup data, bytes 6 to 33.
    pub lsd: Lsd,
    /// The frame number, below 32,768: the low 15 bits of the field in bytes 34 and 35.
    pub number: u16,
    /// Whether it is the last frame of its stream: the top bit of that field.
    pub last: bool,
    /// The payload, bytes 36 to 51.
    pub payload: [u8; 16],
    ghost numbered: { number < 32768 },
}

/// Why bytes are no stream packet: the first reason that fits, in this order.
#[derive(Clone, Copy, Debug, PartialEq, Eq)]
pub enum StreamRefusal {
    /// Their number, which isn't 54.
    Length(usize),
    /// The first four bytes, which aren't `M17 `.
    Magic([u8; 4]),
    /// The CRC field `found` in bytes 52 and 53 isn't the CRC of bytes 0 to 51, which is `expected`.
    Crc { found: u16, expected: u16 },
}
