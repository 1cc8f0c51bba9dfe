ghost use Rattle.std.specs.Prelude.{◌≡◌, ◌≢◌, ◌↔◌, ◌+◌, ◌≤◌, ◌<◌, ◌^◌, ◌∷◌, [], ◌++◌, length, IsNone, IfSome};
ghost use Rattle.arrayvec.specs.ArrayVec.{array_vec_len};
ghost use Rattle.m17_values.specs.declared.heard.Heard.TheVariants.{End};
ghost use Rattle.m17_book.specs.Book.{trace_magic};
ghost use Rattle.m17_book.specs.Entries.{entry_bytes, family_bytes};

use crate::form::{DATAGRAM, FAULT, QUIET, TRACE_MAGIC};
use crate::spell_record::add;
use arrayvec::ArrayVec;
use m17_values::{Gram, Heard, Peer};

/// How many bytes an entry has at the most: a datagram of 64 bytes from an IPv6 address.
const ENTRY_BYTES: usize = 93;

/// The eight bytes that a trace begins with: `M17TRACE`.
pub fn write_trace_header() -> [u8; 8]
    ensures { result ≡ trace_magic }
{
    TRACE_MAGIC
}

/// The bytes of an entry of a trace: 18 to 93 of a datagram, 9 of quiet, 1 of a fault; none for the end, which a trace
/// does not spell. Of an IPv4 address the first four bytes count.
pub fn write_entry(h: &Heard) -> Option<ArrayVec<u8, 93>>
    ensures none { IsNone result ↔ (h.now ≡ End) }
    ensures spelled { IfSome result (λ bytes. bytes.items ≡ entry_bytes h.now) }
{
    match h {
        Heard::Datagram { from, at, bytes } => Some(datagram(from, *at, bytes)),
        Heard::Quiet { at } => {
            let mut entry = ArrayVec::new();
            add(&mut entry, &[QUIET]);
            add(&mut entry, &at.to_be_bytes());
            Some(entry)
        }
        Heard::Fault => {
            let mut entry = ArrayVec::new();
            add(&mut entry, &[FAULT]);
            Some(entry)
        }
        Heard::End => None,
    }
}

/// A datagram: kind, moment, family, address, port, length and bytes.
fn datagram(from: &Peer, at: u64, gram: &Gram) -> ArrayVec<u8, ENTRY_BYTES>
    ensures { result.items ≡ entry_bytes (Heard.Datagram from.now at gram.now) }
{
    let mut entry = ArrayVec::new();
    let port = from.port;
    let bytes = gram.bytes();
    add(&mut entry, &[DATAGRAM]);
    add(&mut entry, &at.to_be_bytes());
    add_address(&mut entry, from);
    add(&mut entry, &port.to_be_bytes());
    add(&mut entry, &[bytes.len() as u8]);
    add(&mut entry, bytes);
    entry
}

/// Adds the family and the address of a peer.
fn add_address(entry: &mut ArrayVec<u8, ENTRY_BYTES>, from: &Peer)
    requires { array_vec_len entry.old ≡ 9 }
    ensures items { entry.new.items ≡ entry.old.items ++ family_bytes from.now.six from.now.ip }
    ensures len { array_vec_len entry.new ≤ 26 }
{
    if from.six {
        add(entry, &[6]);
        add(entry, &from.ip);
    } else {
        add(entry, &[4]);
        add(entry, &from.ip[..4]);
    }
}
