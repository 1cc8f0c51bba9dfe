ghost use Rattle.std.specs.Prelude.{◌≡◌, ◌⊎◌, ℕ, ◌+◌, ◌<◌, ◌≤◌, ◌++◌, length, take, slice_index, slice_range, MatchResult};
ghost use Rattle.m17_fields.specs.Fields.{IsBytes};
ghost use Rattle.m17_book.specs.Entries.{SpellsEntry};
ghost use Rattle.m17_book.specs.Flaws.{EntryFlaw, kind_of};
ghost use Rattle.m17_book.specs.Parsed.{BeginsWith, IsAddress};

use crate::Flaw;
use crate::form::{DATAGRAM, DATAGRAM_BYTES, FAULT, QUIET};
use m17_fields::{get_16, get_64};
use m17_values::{Gram, Heard, Peer};

/// Where the moment, the family and the address begin.
const AT_AT: usize = 1;

const FAMILY_AT: usize = 9;

const ADDRESS_AT: usize = 10;

/// The families of addresses, and how many bytes an address of each has.
const FAMILY_4: u8 = 4;

const FAMILY_6: u8 = 6;

const ADDRESS_4_BYTES: usize = 4;

const ADDRESS_6_BYTES: usize = 16;

/// How many bytes a quiet has: its kind and its moment.
const QUIET_BYTES: usize = 9;

/// The entry that the bytes begin with, and how many bytes it has; else what is wrong first.
pub(crate) fn parse_entry(b: &[u8]) -> Result<(Heard, usize), Flaw>
    requires { 0 < length b.now }
    ensures { MatchResult result (λ found. BeginsWith SpellsEntry b.now found.0 found.1)
        (EntryFlaw b.now) }
{
    match b[0] {
        DATAGRAM => parse_datagram(b),
        QUIET if b.len() < QUIET_BYTES => Err(Flaw::Cut),
        QUIET => Ok((
            Heard::Quiet {
                at: get_64(b, AT_AT),
            },
            QUIET_BYTES,
        )),
        FAULT => Ok((Heard::Fault, 1)),
        kind => Err(Flaw::Kind(kind)),
    }
}

/// A datagram: its family says how many bytes its address has.
fn parse_datagram(b: &[u8]) -> Result<(Heard, usize), Flaw>
    requires { kind_of b.now ≡ 1 }
    ensures { MatchResult result (λ found. BeginsWith SpellsEntry b.now found.0 found.1)
        (EntryFlaw b.now) }
{
    if b.len() <= FAMILY_AT {
        return Err(Flaw::Cut);
    }
    match b[FAMILY_AT] {
        FAMILY_4 => parse_rest(b, ADDRESS_4_BYTES),
        FAMILY_6 => parse_rest(b, ADDRESS_6_BYTES),
        _ => Err(Flaw::Field(FAMILY_AT)),
    }
}

/// What stands after the family, where the address has this number of bytes.
fn parse_rest(b: &[u8], size: usize) -> Result<(Heard, usize), Flaw>
    requires kind { kind_of b.now ≡ 1 }
    requires family { ((slice_index b.now 9 ≡ 4) × (size ≡ 4))
        ⊎ ((slice_index b.now 9 ≡ 6) × (size ≡ 16)) }
    ensures { MatchResult result (λ found. BeginsWith SpellsEntry b.now found.0 found.1)
        (EntryFlaw b.now) }
{
    let port_at = ADDRESS_AT + size;
    let length_at = port_at + 2;
    if b.len() <= length_at {
        return Err(Flaw::Cut);
    }
    let length = b[length_at];
    if length > DATAGRAM_BYTES {
        return Err(Flaw::Field(length_at));
    }
    let end = length_at + 1 + usize::from(length);
    if b.len() < end {
        return Err(Flaw::Cut);
    }
    let from = Peer {
        six: size == ADDRESS_6_BYTES,
        ip: address_of(&b[ADDRESS_AT..port_at]),
        port: get_16(b, port_at),
    };
    let at = get_64(b, AT_AT);
    let bytes = Gram::of(&b[length_at + 1..end]);
    Ok((Heard::Datagram { from, at, bytes }, end))
}

/// The 16 bytes of an address: its own, and then zeros.
fn address_of(bytes: &[u8]) -> [u8; 16]
    requires { length bytes.now ≤ 16 }
    ensures address { IsAddress bytes.now result }
    ensures bytes { IsBytes result }
{
    let mut ip = [0; 16];
    ip[..bytes.len()].copy_from_slice(bytes);
    ip
}
