ghost use Rattle.std.specs.Prelude.{◌≡◌, ◌⊎◌, ℕ, ◌≤◌, ◌+◌, ◌<◌, List, length, Option, IsSome, IfSome, Ok, IfOk, IfErr, OnErr};
ghost use Rattle.m17_book.specs.Ahead.{held, IsAhead};
ghost use Rattle.m17_book.specs.Answers.{IsOutside};
ghost use Rattle.m17_book.specs.Flaws.{RecordFlaw};
ghost use Rattle.m17_book.specs.Limits.{told};
ghost use Rattle.m17_book.specs.Reading.{HasReadCause, IsReadersRefusal};
ghost use Rattle.m17_book.specs.Records.{SpellsRecord, IsWritable};
ghost use Rattle.m17_book.specs.Steps.{tell, IsNext, PassesHeader};
ghost use Rattle.m17_book.specs.Walk.{coming, spot, IsAt, PassesMagic, TakesEntry};

use crate::cursor::Cursor;
use crate::form::{MAGIC_BYTES, TRACE_MAGIC};
use crate::parse_entry::parse_entry;
use crate::parse_header::{parse_header, parse_magic};
use crate::parse_record::parse_record;
use crate::version::Version;
use crate::{Flaw, FormRefusal, Head, Record};
use m17_io::{Input, Sink};
use m17_values::Heard;

/// What is said of a flaw of the bytes at a place, of which this number is there.
fn refusal_of(flaw: Flaw, place: u64, len: usize) -> FormRefusal
    ensures told { result ≡ tell flaw place len }
    ensures inside { IsOutside result → ⊥ }
    ensures kinds { IsReadersRefusal result }
{
    match flaw {
        Flaw::Cut => FormRefusal::Cut {
            at: place.saturating_add(len as u64),
        },
        Flaw::Kind(byte) => FormRefusal::Kind { at: place, byte },
        Flaw::Field(k) => FormRefusal::Field {
            at: place.saturating_add(k as u64),
        },
    }
}

/// Passes the header of a book of the version, and answers what it says.
pub(crate) fn pass_header<S: Input<K>, K: Sink>(
    version: Version,
    cursor: &mut Cursor,
    source: &mut S,
    out: &K,
) -> Result<Head, FormRefusal>
    requires quiet { (K.told out.now).held_back ≡ 0 }
    ensures header { (ahead : List ℕ) → IsAhead (held cursor.old) (S.told source.old).left ahead
        → PassesHeader version result (coming cursor.old.place ahead)
        (spot cursor.new (S.told source.new).left) }
    ensures kept { OnErr result ((ahead : List ℕ)
        → IsAhead (held cursor.old) (S.told source.old).left ahead
        → IsAhead (held cursor.new) (S.told source.new).left ahead) }
    ensures place { OnErr result (cursor.new.place ≡ cursor.old.place) }
    ensures kinds { IfErr result IsReadersRefusal }
    ensures cause { HasReadCause (S.told source.old).faults (S.told source.new).faults result }
{
    let Ok(()) = cursor.fill(source, out) else {
        return Err(FormRefusal::ReadFault);
    };
    let held = cursor.held();
    match parse_header(version, held) {
        Ok(head) => {
            cursor.pass(version.header_bytes());
            Ok(head)
        }
        Err(flaw) => Err(refusal_of(flaw, cursor.place(), held.len())),
    }
}

/// The next record of a book of the version; none at the end of the input.
pub(crate) fn next_record<S: Input<K>, K: Sink>(
    version: Version,
    cursor: &mut Cursor,
    source: &mut S,
    out: &K,
) -> Result<Option<Record>, FormRefusal>
    requires quiet { (K.told out.now).held_back ≡ 0 }
    ensures next { (ahead : List ℕ) → IsAhead (held cursor.old) (S.told source.old).left ahead
        → IsNext (SpellsRecord version) (RecordFlaw version) result (coming cursor.old.place ahead)
        (spot cursor.new (S.told source.new).left) }
    ensures kept { OnErr result ((ahead : List ℕ)
        → IsAhead (held cursor.old) (S.told source.old).left ahead
        → IsAhead (held cursor.new) (S.told source.new).left ahead) }
    ensures place { OnErr result (cursor.new.place ≡ cursor.old.place) }
    ensures goes_on { IfOk result (λ next. IsSome next
        → told (cursor.old.place + 1) ≤ cursor.new.place) }
    ensures writable { IfOk result (λ next. IfSome next IsWritable) }
    ensures kinds { IfErr result IsReadersRefusal }
    ensures cause { HasReadCause (S.told source.old).faults (S.told source.new).faults result }
{
    let Ok(()) = cursor.fill(source, out) else {
        return Err(FormRefusal::ReadFault);
    };
    let held = cursor.held();
    if held.is_empty() {
        return Ok(None);
    }
    match parse_record(version, held) {
        Ok((record, size)) => {
            cursor.pass(size);
            Ok(Some(record))
        }
        Err(flaw) => Err(refusal_of(flaw, cursor.place(), held.len())),
    }
}

/// Passes the magic of a trace.
pub(crate) fn pass_magic<S: Input<K>, K: Sink>(
    cursor: &mut Cursor,
    source: &mut S,
    out: &K,
) -> Result<(), FormRefusal>
    requires quiet { (K.told out.now).held_back ≡ 0 }
    ensures magic { (ahead : List ℕ) → IsAt (spot cursor.old (S.told source.old).left) ahead
        → PassesMagic result cursor.old.place ahead (spot cursor.new (S.told source.new).left) }
    ensures cause { HasReadCause (S.told source.old).faults (S.told source.new).faults result }
{
    let Ok(()) = cursor.fill(source, out) else {
        return Err(FormRefusal::ReadFault);
    };
    let held = cursor.held();
    match parse_magic(&TRACE_MAGIC, held) {
        Ok(()) => {
            cursor.pass(MAGIC_BYTES);
            Ok(())
        }
        Err(flaw) => Err(refusal_of(flaw, cursor.place(), held.len())),
    }
}

/// The entry that the held bytes begin with, where these are 97 at least or all that are to come.
pub(crate) fn take_entry(cursor: &mut Cursor) -> Result<Heard, FormRefusal>
    requires { 0 < length (held cursor.old) }
    ensures entry { (ahead : List ℕ) → (left : Option (List ℕ)) → IsAt (spot cursor.old left) ahead
        → (97 ≤ length (held cursor.old)) ⊎ (ahead ≡ held cursor.old)
        → TakesEntry result cursor.old.place ahead (spot cursor.new left) }
    ensures kept { OnErr result (cursor.new ≡ cursor.old) }
    ensures inside { IfErr result (λ refusal. IsOutside refusal → ⊥) }
{
    let held = cursor.held();
    match parse_entry(held) {
        Ok((entry, size)) => {
            cursor.pass(size);
            Ok(entry)
        }
        Err(flaw) => Err(refusal_of(flaw, cursor.place(), held.len())),
    }
}
