ghost use Rattle.std.specs.Prelude.{◌≡◌, ◌↔◌, ◌+◌, ◌<◌, ◌≤◌, ◌++◌, take, drop, length, All, ◌^◌, MatchResult};
ghost use Rattle.m17_stream.specs.Fields.{HasFields};
ghost use Rattle.m17_stream.specs.Stream.{SpellsStream, RefusesStream, front_bytes, frame_field};
ghost use Rattle.m17_stream.specs.declared.packet.StreamPacket.{StreamPacket};
ghost use Rattle.m17_stream.specs.declared.packet.StreamRefusal.{StreamRefusal};

use crate::packet::{CRC_AT, FIELD_AT, LSD_AT, MAGIC, PAYLOAD_AT, SID_AT};
use crate::{FRAME_NUMBERS, PACKET_BYTES, StreamPacket, StreamRefusal, laws};
use m17_crc::crc;
use m17_fields::{get_16, put};

/// The stream packet that these bytes spell, all of them; else the first reason why they spell none: `Length` where
/// there are not 54 bytes, `Magic` where they do not begin with `M17 `, and `Crc` where the CRC field is not the CRC of
/// the bytes before it. M17 Protocol Specification, IP networking.
pub fn read(b: &[u8]) -> Result<StreamPacket, StreamRefusal>
    ensures ok { (p : StreamPacket) → (result ≡ Ok p) ↔ SpellsStream p b.now }
    ensures err { (refusal : StreamRefusal) → (result ≡ Err refusal) ↔ RefusesStream b.now refusal }
{
    laws::one_spelling();
    m17_crc::laws::crc_has_16_bits();
    m17_fields::laws::fields_of_16_bits_are_exact();
    read_first(b)
}

/// The packet or the refusal, whichever comes first.
#[inline]
fn read_first(b: &[u8]) -> Result<StreamPacket, StreamRefusal>
    ensures { MatchResult result (λ p. SpellsStream p b.now) (RefusesStream b.now) }
{
    let Some(b) = b.as_array::<PACKET_BYTES>() else {
        return Err(StreamRefusal::Length(b.len()));
    };
    let magic: [u8; 4] = *b[..SID_AT].as_array().unwrap();
    if magic != MAGIC {
        return Err(StreamRefusal::Magic(magic));
    }
    let found = get_16(b, CRC_AT);
    let expected = crc(&b[..CRC_AT]);
    if found != expected {
        return Err(StreamRefusal::Crc { found, expected });
    }
    Ok(fields(b))
}

/// The fields between the magic and the CRC.
#[inline]
fn fields(b: &[u8; PACKET_BYTES]) -> StreamPacket
    ensures { HasFields result b.now }
{
    let field = get_16(b, FIELD_AT);
    StreamPacket {
        sid: get_16(b, SID_AT),
        lsd: m17_lsd::read(b[LSD_AT..FIELD_AT].as_array().unwrap()),
        number: field % FRAME_NUMBERS,
        last: field >= FRAME_NUMBERS,
        payload: *b[PAYLOAD_AT..CRC_AT].as_array().unwrap(),
    }
}

/// The 54 bytes of the packet. M17 Protocol Specification, IP networking.
pub fn write(p: &StreamPacket) -> [u8; 54]
    ensures { SpellsStream p.now result }
{
    let sid = p.sid;
    let mut bytes = [0; PACKET_BYTES];
    put(&mut bytes, 0, &MAGIC);
    put(&mut bytes, SID_AT, &sid.to_be_bytes());
    put(&mut bytes, LSD_AT, &m17_lsd::write(&p.lsd));
    put(&mut bytes, FIELD_AT, &field(p.last, p.number).to_be_bytes());
    put(&mut bytes, PAYLOAD_AT, &p.payload);
    let crc = crc(&bytes[..CRC_AT]);
    put(&mut bytes, CRC_AT, &crc.to_be_bytes());
    bytes
}

/// The field of a frame: its number, and the top bit in the last frame of its stream.
#[inline]
fn field(last: bool, number: u16) -> u16
    requires { number < 32768 }
    ensures { result ≡ frame_field last number }
{
    if last { FRAME_NUMBERS + number } else { number }
}
