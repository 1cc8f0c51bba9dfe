ghost use Rattle.std.specs.Prelude.{◌≡◌, ◌+◌, ◌≤◌, ◌++◌, ◌∷◌, [], length};
ghost use Rattle.arrayvec.specs.ArrayVec.{array_vec_len};
ghost use Rattle.m17_callsign.specs.AddressBytes.{address_bytes};
ghost use Rattle.m17_control.specs.Forms.{SpellsControl, IsFrom, IsModule};

use crate::form::{ACKN, CONN, DISC, LSTN, MODULE_BYTES, NACK, PING, PONG};
use crate::{Control, ModuleLetter};
use arrayvec::ArrayVec;
use m17_callsign::{CallAddress, to_bytes};

/// The bytes of the control packet, 4, 10 or 11. M17 Protocol Specification, IP networking; the forms are this
/// profile's.
pub fn write(c: &Control) -> ArrayVec<u8, 11>
    ensures { SpellsControl c.now result.items }
{
    match c {
        Control::Conn { from, module } => with_module(&CONN, *from, *module),
        Control::Lstn { from, module } => with_module(&LSTN, *from, *module),
        Control::Ackn => bare(&ACKN),
        Control::Nack => bare(&NACK),
        Control::Ping { from } => with_from(&PING, *from),
        Control::Pong { from } => with_from(&PONG, *from),
        Control::Disc { from: Some(from) } => with_from(&DISC, *from),
        Control::Disc { from: None } => bare(&DISC),
    }
}

/// A magic alone.
#[inline]
fn bare(magic: &[u8; 4]) -> ArrayVec<u8, MODULE_BYTES>
    ensures items { result.items ≡ magic.now }
    ensures len { array_vec_len result ≡ 4 }
{
    let mut bytes = ArrayVec::new();
    put(&mut bytes, magic);
    bytes
}

/// A magic, and From.
#[inline]
fn with_from(magic: &[u8; 4], from: CallAddress) -> ArrayVec<u8, MODULE_BYTES>
    ensures items { result.items ≡ magic.now ++ address_bytes from }
    ensures len { array_vec_len result ≡ 10 }
    ensures in_range { IsFrom from }
{
    let mut bytes = bare(magic);
    put(&mut bytes, &to_bytes(from.address()));
    bytes
}

/// A magic, From and the module.
#[inline]
fn with_module(
    magic: &[u8; 4],
    from: CallAddress,
    letter: ModuleLetter,
) -> ArrayVec<u8, MODULE_BYTES>
    ensures items { result.items ≡ magic.now ++ address_bytes from ++ letter ∷ [] }
    ensures in_range { IsFrom from }
    ensures letter { IsModule letter }
{
    let mut bytes = with_from(magic, from);
    bytes.push(letter.byte());
    bytes
}

/// Adds the bytes of a field at the end.
#[inline]
fn put(bytes: &mut ArrayVec<u8, MODULE_BYTES>, field: &[u8])
    requires { array_vec_len bytes.old + length field.now ≤ 11 }
    ensures items { bytes.new.items ≡ bytes.old.items ++ field.now }
    ensures len { array_vec_len bytes.new ≡ array_vec_len bytes.old + length field.now }
{
    bytes.try_extend_from_slice(field).unwrap();
}
