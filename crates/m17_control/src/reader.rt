ghost use Rattle.std.specs.Prelude.{◌≡◌, ◌≢◌, ◌↔◌, ◌⊎◌, ◌≤◌, length, take, drop, slice_index, MatchResult};
ghost use Rattle.m17_callsign.specs.AddressBytes.{address_bytes};
ghost use Rattle.m17_control.specs.Forms.{Spells, Refuses, HasMagic, HasFrom, IsFrom, IsModule};
ghost use Rattle.m17_control.specs.declared.packet.Packet.{Packet};
ghost use Rattle.m17_control.specs.declared.packet.Refusal.{Refusal};

use crate::form::{
    ACKN, BARE_BYTES, CONN, DISC, FROM_AT, FROM_BYTES, LSTN, MODULE_AT, MODULE_BYTES, NACK, PING,
    PONG,
};
use crate::{Control, ModuleLetter, Packet, Refusal, laws};
use m17_callsign::{CallAddress, from_bytes};
use m17_stream::StreamRefusal;

/// The packet that these bytes spell, all of them; else the first reason why they spell none: `Length` where no packet
/// has so many bytes, `Magic` where the first four are no magic of that length, `Address` where a control packet's From
/// has no callsign, `Module` where its module is not A to Z, and `Crc` where a stream packet's CRC field is not the CRC
/// of the bytes before it. M17 Protocol Specification, IP networking; the forms of control packets are this profile's.
pub fn decode(b: &[u8]) -> Result<Packet, Refusal>
    ensures ok { (p : Packet) → (result ≡ Ok p) ↔ Spells p b.now }
    ensures err { (refusal : Refusal) → (result ≡ Err refusal) ↔ Refuses b.now refusal }
{
    laws::decoding_is_exact();
    decode_first(b)
}

/// The packet or the refusal, whichever comes first.
fn decode_first(b: &[u8]) -> Result<Packet, Refusal>
    ensures { MatchResult result (λ p. Spells p b.now) (Refuses b.now) }
{
    match m17_stream::read(b) {
        Ok(packet) => Ok(Packet::Stream(packet)),
        Err(StreamRefusal::Length(_)) => control(b),
        Err(StreamRefusal::Magic(magic)) => Err(Refusal::Magic(magic)),
        Err(StreamRefusal::Crc { found, expected }) => Err(Refusal::Crc { found, expected }),
    }
}

/// The control packet of bytes that are too few or too many for a stream packet.
fn control(b: &[u8]) -> Result<Packet, Refusal>
    requires { length b.now ≢ 54 }
    ensures { MatchResult result (λ p. Spells p b.now) (Refuses b.now) }
{
    match b.len() {
        BARE_BYTES => bare(b),
        FROM_BYTES => with_from(b),
        MODULE_BYTES => with_module(b),
        n => Err(Refusal::Length(u32::try_from(n).unwrap_or(u32::MAX))),
    }
}

/// A packet that is a magic alone.
fn bare(b: &[u8]) -> Result<Packet, Refusal>
    requires { length b.now ≡ 4 }
    ensures { MatchResult result (λ p. Spells p b.now) (Refuses b.now) }
{
    let magic = magic_of(b);
    if magic == ACKN {
        Ok(Packet::Control(Control::Ackn))
    } else if magic == NACK {
        Ok(Packet::Control(Control::Nack))
    } else if magic == DISC {
        Ok(Packet::Control(Control::Disc { from: None }))
    } else {
        Err(Refusal::Magic(magic))
    }
}

/// A packet that is a magic and From.
fn with_from(b: &[u8]) -> Result<Packet, Refusal>
    requires { length b.now ≡ 10 }
    ensures { MatchResult result (λ p. Spells p b.now) (Refuses b.now) }
{
    let magic = magic_of(b);
    if magic == PING {
        let from = from_of(b)?;
        Ok(Packet::Control(Control::Ping { from }))
    } else if magic == PONG {
        let from = from_of(b)?;
        Ok(Packet::Control(Control::Pong { from }))
    } else if magic == DISC {
        let from = from_of(b)?;
        Ok(Packet::Control(Control::Disc { from: Some(from) }))
    } else {
        Err(Refusal::Magic(magic))
    }
}

/// A packet that is a magic, From and a module.
fn with_module(b: &[u8]) -> Result<Packet, Refusal>
    requires { length b.now ≡ 11 }
    ensures { MatchResult result (λ p. Spells p b.now) (Refuses b.now) }
{
    let magic = magic_of(b);
    if magic == CONN {
        let (from, module) = membership_of(b)?;
        Ok(Packet::Control(Control::Conn { from, module }))
    } else if magic == LSTN {
        let (from, module) = membership_of(b)?;
        Ok(Packet::Control(Control::Lstn { from, module }))
    } else {
        Err(Refusal::Magic(magic))
    }
}

/// The first four bytes.
#[inline]
fn magic_of(b: &[u8]) -> [u8; 4]
    requires { 4 ≤ length b.now }
    ensures { result ≡ take 4 b.now }
{
    *b[..FROM_AT].as_array().unwrap()
}

/// The address in From, which has a callsign.
#[inline]
fn from_of(b: &[u8]) -> Result<CallAddress, Refusal>
    requires has_magic { HasMagic b.now }
    requires has_from { (length b.now ≡ 10) ⊎ (length b.now ≡ 11) }
    ensures { MatchResult result (λ from. IsFrom from × HasFrom b.now from) (Refuses b.now) }
{
    let address = from_bytes(b[FROM_AT..MODULE_AT].as_array().unwrap());
    match CallAddress::new(address) {
        Some(from) => Ok(from),
        None => Err(Refusal::Address(address.value())),
    }
}

/// From and the module of a packet that has both: From is judged first.
#[inline]
fn membership_of(b: &[u8]) -> Result<(CallAddress, ModuleLetter), Refusal>
    requires has_magic { HasMagic b.now }
    requires long { length b.now ≡ 11 }
    ensures { MatchResult result (λ found. IsFrom found.0 × HasFrom b.now found.0
        × IsModule found.1 × (found.1 ≡ slice_index b.now 10)) (Refuses b.now) }
{
    let from = from_of(b)?;
    let byte = b[MODULE_AT];
    match ModuleLetter::new(byte) {
        Some(module) => Ok((from, module)),
        None => Err(Refusal::Module(byte)),
    }
}
