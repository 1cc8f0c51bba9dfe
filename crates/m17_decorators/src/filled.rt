ghost use Rattle.std.specs.Prelude.{◌≡◌, [], ◌∷◌, length, take, drop};
ghost use Rattle.std.specs.Str.{bytes_eq};
ghost use Rattle.m17_stream.specs.Stream.{magic};
ghost use Rattle.m17_decorators.specs.Filled.{filled, lacks_crc, with_crc};

use m17_crc::crc;
use m17_fields::put;
use m17_stream::PACKET_BYTES;
use m17_values::Gram;

/// Where the CRC of a stream packet stands.
const CRC_AT: usize = 52;

/// The datagram, with its CRC where it lacks one.
pub(crate) fn filled(gram: Gram) -> Gram
    ensures { result ≡ filled gram }
{
    if lacks_crc(gram.bytes()) {
        with_crc(gram.bytes())
    } else {
        gram
    }
}

/// Whether the bytes are as many as a stream packet has, begin as one, and end in two zeros.
fn lacks_crc(bytes: &[u8]) -> bool
    ensures { result ≡ lacks_crc bytes.now }
{
    bytes.len() == PACKET_BYTES && begins_as_packet(bytes) && ends_in_zeros(bytes)
}

/// Whether the first four bytes are those of a stream packet.
fn begins_as_packet(bytes: &[u8]) -> bool
    requires { length bytes.now ≡ 54 }
    ensures { result ≡ bytes_eq (take 4 bytes.now) magic }
{
    &bytes[..4] == b"M17 ".as_slice()
}

/// Whether there are zeros where the CRC stands.
fn ends_in_zeros(bytes: &[u8]) -> bool
    requires { length bytes.now ≡ 54 }
    ensures { result ≡ bytes_eq (drop 52 bytes.now) (0 ∷ 0 ∷ []) }
{
    &bytes[CRC_AT..] == b"\x00\x00".as_slice()
}

/// The bytes before the CRC, and their CRC.
fn with_crc(bytes: &[u8]) -> Gram
    requires { length bytes.now ≡ 54 }
    ensures { result ≡ with_crc bytes.now }
{
    let front = &bytes[..CRC_AT];
    let mut whole = [0; PACKET_BYTES];
    put(&mut whole, 0, front);
    put(&mut whole, CRC_AT, &crc(front).to_be_bytes());
    Gram::of(&whole)
}
