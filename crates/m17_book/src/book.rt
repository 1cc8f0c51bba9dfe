ghost use Rattle.std.specs.Prelude.{◌≡◌, ◌⊎◌, ℕ, ◌+◌, ◌<◌, ◌≤◌, List, [], ◌∷◌, ◌++◌, length, All, Option, Some, IsTrue, IfOk, IfErr, OnErr, MatchResult};
ghost use Rattle.m17_book.specs.Ahead.{held, IsAhead};
ghost use Rattle.m17_book.specs.Answers.{IsOutside};
ghost use Rattle.m17_book.specs.Book.{IsBook, RefusesBook};
ghost use Rattle.m17_book.specs.Limits.{told};
ghost use Rattle.m17_book.specs.Records.{IsWritable, SpellsRecord};
ghost use Rattle.m17_book.specs.Reading.{HasReadCause};
ghost use Rattle.m17_book.specs.Versions.{header_of, most_book_bytes};
ghost use Rattle.m17_book.specs.Walk.{coming, spot, IsAt, AddsOne, AddsAll, IsHeaderOf, ReadsBook, WrongRecord};
ghost use Rattle.m17_book.specs.declared.head.Head.{Head};
ghost use Rattle.m17_book.specs.declared.record.Record.{Record};
ghost use Rattle.m17_book.specs.declared.refusal.FormRefusal.{FormRefusal};
ghost use Rattle.m17_book.specs.declared.version.Version.TheVariants.{One, Two};

use crate::cursor::Cursor;
use crate::laws::books_are_exact;
use crate::settle::{add_to, settle};
use crate::silent::Silent;
use crate::steps::{next_record, pass_header};
use crate::version::Version;
use crate::{FormRefusal, Head, Record};
use m17_control::ModuleLetter;
use m17_io::{Input, Sink, Source};
use std::alloc::Global;

/// A book: what its header says, and the records that the bytes of the source spell behind it. It reads to the end of
/// the source, through one buffer, and keeps no bytes. Else why the bytes are no book: `Cut`, `Kind` and `Field` with
/// their places in the input, a book of version 1 with `Field` at 7; and before these `Large` at 67,108,872 where there
/// are more bytes than that. `ReadFault` where the source failed, `NoMemory` where there is none for the list.
pub fn read_book<S: Source>(alloc: Global, s: &mut S) -> Result<(Head, Vec<Record>), FormRefusal>
    ensures book { IfOk result (λ found. (bytes : List ℕ) → (S.told s.old).left ≡ Some bytes
        → IsBook Two bytes found.0 found.1.items) }
    ensures refused { IfErr result (λ refusal. (bytes : List ℕ) → (S.told s.old).left ≡ Some bytes
        → IsOutside refusal ⊎ RefusesBook Two bytes refusal) }
    ensures each_book { (bytes : List ℕ) → (head : Head) → (records : List Record)
        → (S.told s.old).left ≡ Some bytes → IsBook Two bytes head records
        → MatchResult result (λ found. (found.0 ≡ head) × (found.1.items ≡ records)) IsOutside }
    ensures each_refusal { (bytes : List ℕ) → (refusal : FormRefusal)
        → (S.told s.old).left ≡ Some bytes → RefusesBook Two bytes refusal
        → MatchResult result (λ _. ⊥) (λ told. IsOutside told ⊎ (told ≡ refusal)) }
    ensures nothing_left { IfOk result (λ _. (bytes : List ℕ) → (S.told s.old).left ≡ Some bytes
        → (S.told s.new).left ≡ Some []) }
    ensures writable { IfOk result (λ found. All IsWritable found.1.items) }
    ensures cause { HasReadCause (S.told s.old).faults (S.told s.new).faults result }
{
    read_book_of(Version::Two, alloc, s, &Silent)
}

/// The same of a book of version 1: the letter of its module, and its records. `Large` comes at 67,108,864, and a book of
/// version 2 is refused with `Field` at 7.
pub fn read_book_1<S: Source>(
    alloc: Global,
    s: &mut S,
) -> Result<(ModuleLetter, Vec<Record>), FormRefusal>
    ensures book { IfOk result (λ found. (bytes : List ℕ) → (S.told s.old).left ≡ Some bytes
        → IsBook One bytes (header_of found.0) found.1.items) }
    ensures refused { IfErr result (λ refusal. (bytes : List ℕ) → (S.told s.old).left ≡ Some bytes
        → IsOutside refusal ⊎ RefusesBook One bytes refusal) }
    ensures each_book { (bytes : List ℕ) → (head : Head) → (records : List Record)
        → (S.told s.old).left ≡ Some bytes → IsBook One bytes head records
        → MatchResult result (λ found. (found.0 ≡ head.module) × (found.1.items ≡ records)) IsOutside }
    ensures each_refusal { (bytes : List ℕ) → (refusal : FormRefusal)
        → (S.told s.old).left ≡ Some bytes → RefusesBook One bytes refusal
        → MatchResult result (λ _. ⊥) (λ told. IsOutside told ⊎ (told ≡ refusal)) }
    ensures nothing_left { IfOk result (λ _. (bytes : List ℕ) → (S.told s.old).left ≡ Some bytes
        → (S.told s.new).left ≡ Some []) }
    ensures writable { IfOk result (λ found. All IsWritable found.1.items) }
    ensures cause { HasReadCause (S.told s.old).faults (S.told s.new).faults result }
{
    read_book_1_for(alloc, s, &Silent)
}

/// The same for a command that prints into this sink: its source is read while the sink holds nothing back, and the
/// sink is left as it is.
pub fn read_book_1_for<S: Input<K>, K: Sink>(
    alloc: Global,
    s: &mut S,
    out: &K,
) -> Result<(ModuleLetter, Vec<Record>), FormRefusal>
    requires quiet { (K.told out.now).held_back ≡ 0 }
    ensures book { IfOk result (λ found. (bytes : List ℕ) → (S.told s.old).left ≡ Some bytes
        → IsBook One bytes (header_of found.0) found.1.items) }
    ensures refused { IfErr result (λ refusal. (bytes : List ℕ) → (S.told s.old).left ≡ Some bytes
        → IsOutside refusal ⊎ RefusesBook One bytes refusal) }
    ensures each_book { (bytes : List ℕ) → (head : Head) → (records : List Record)
        → (S.told s.old).left ≡ Some bytes → IsBook One bytes head records
        → MatchResult result (λ found. (found.0 ≡ head.module) × (found.1.items ≡ records)) IsOutside }
    ensures each_refusal { (bytes : List ℕ) → (refusal : FormRefusal)
        → (S.told s.old).left ≡ Some bytes → RefusesBook One bytes refusal
        → MatchResult result (λ _. ⊥) (λ told. IsOutside told ⊎ (told ≡ refusal)) }
    ensures nothing_left { IfOk result (λ _. (bytes : List ℕ) → (S.told s.old).left ≡ Some bytes
        → (S.told s.new).left ≡ Some []) }
    ensures writable { IfOk result (λ found. All IsWritable found.1.items) }
    ensures cause { HasReadCause (S.told s.old).faults (S.told s.new).faults result }
{
    match read_book_of(Version::One, alloc, s, out) {
        Ok((head, records)) => Ok((head.module, records)),
        Err(refusal) => Err(refusal),
    }
}

/// A book of the version.
fn read_book_of<S: Input<K>, K: Sink>(
    version: Version,
    alloc: Global,
    s: &mut S,
    out: &K,
) -> Result<(Head, Vec<Record>), FormRefusal>
    requires quiet { (K.told out.now).held_back ≡ 0 }
    ensures book { IfOk result (λ found. (bytes : List ℕ) → (S.told s.old).left ≡ Some bytes
        → IsBook version bytes found.0 found.1.items) }
    ensures refused { IfErr result (λ refusal. (bytes : List ℕ) → (S.told s.old).left ≡ Some bytes
        → IsOutside refusal ⊎ RefusesBook version bytes refusal) }
    ensures each_book { (bytes : List ℕ) → (head : Head) → (records : List Record)
        → (S.told s.old).left ≡ Some bytes → IsBook version bytes head records
        → MatchResult result (λ found. (found.0 ≡ head) × (found.1.items ≡ records)) IsOutside }
    ensures each_refusal { (bytes : List ℕ) → (refusal : FormRefusal)
        → (S.told s.old).left ≡ Some bytes → RefusesBook version bytes refusal
        → MatchResult result (λ _. ⊥) (λ told. IsOutside told ⊎ (told ≡ refusal)) }
    ensures nothing_left { IfOk result (λ _. (bytes : List ℕ) → (S.told s.old).left ≡ Some bytes
        → (S.told s.new).left ≡ Some []) }
    ensures writable { IfOk result (λ found. All IsWritable found.1.items) }
    ensures cause { HasReadCause (S.told s.old).faults (S.told s.new).faults result }
{
    books_are_exact();
    let mut cursor = Cursor::new();
    let mut records = Vec::new(alloc);
    let read = add_book(version, &mut cursor, s, out, &mut records);
    match settle(version.most_bytes(), read, &mut cursor, s, out) {
        Ok(head) => Ok((head, records)),
        Err(refusal) => Err(refusal),
    }
}

/// Adds the records of a book, and answers what its header says. The size of the input is looked at only so far as it was
/// read.
fn add_book<S: Input<K>, K: Sink>(
    version: Version,
    cursor: &mut Cursor,
    source: &mut S,
    out: &K,
    records: &mut Vec<Record>,
) -> Result<Head, FormRefusal>
    requires quiet { (K.told out.now).held_back ≡ 0 }
    requires fits { records.old.items ≡ [] }
    ensures read { (bytes : List ℕ) → cursor.old.place ≡ 0
        → IsAt (spot cursor.old (S.told source.old).left) bytes
        → ReadsBook IsHeaderOf version result bytes records.new.items
        (spot cursor.new (S.told source.new).left) }
    ensures writable { All IsWritable records.new.items }
    ensures cause { HasReadCause (S.told source.old).faults (S.told source.new).faults result }
{
    match pass_header(version, cursor, source, out) {
        Ok(head) => match add_records(version, cursor, source, out, records) {
            Ok(()) => Ok(head),
            Err(refusal) => Err(refusal),
        },
        Err(refusal) => Err(refusal),
    }
}

/// Adds each record that is to come.
fn add_records<S: Input<K>, K: Sink>(
    version: Version,
    cursor: &mut Cursor,
    source: &mut S,
    out: &K,
    records: &mut Vec<Record>,
) -> Result<(), FormRefusal>
    requires quiet { (K.told out.now).held_back ≡ 0 }
    requires fits { records.old.items ≡ [] }
    ensures read { (ahead : List ℕ) → IsAt (spot cursor.old (S.told source.old).left) ahead
        → AddsAll (SpellsRecord version) (WrongRecord version) (most_book_bytes version) result
        (coming cursor.old.place ahead) records.new.items
        (spot cursor.new (S.told source.new).left) }
    ensures writable { All IsWritable records.new.items }
    ensures cause { HasReadCause (S.told source.old).faults (S.told source.new).faults result }
{
    let most = version.most_bytes();
    'records: loop {
        if cursor.place() > most {
            return Err(FormRefusal::Large { at: most });
        }
        match add_record(version, cursor, source, out, records) {
            Ok(true) => {}
            Ok(false) => return Ok(()),
            Err(refusal) => return Err(refusal),
        }
    }
}

/// Adds the next record, and answers whether there was one.
fn add_record<S: Input<K>, K: Sink>(
    version: Version,
    cursor: &mut Cursor,
    source: &mut S,
    out: &K,
    records: &mut Vec<Record>,
) -> Result<bool, FormRefusal>
    requires quiet { (K.told out.now).held_back ≡ 0 }
    ensures read { (ahead : List ℕ) → IsAt (spot cursor.old (S.told source.old).left) ahead
        → AddsOne (SpellsRecord version) (WrongRecord version) result
        (coming cursor.old.place ahead)
        records.old.items records.new.items (spot cursor.new (S.told source.new).left) }
    ensures goes_on { IfOk result (λ more. IsTrue more
        → told (cursor.old.place + 1) ≤ cursor.new.place) }
    ensures writable { All IsWritable records.old.items → All IsWritable records.new.items }
    ensures cause { HasReadCause (S.told source.old).faults (S.told source.new).faults result }
{
    match next_record(version, cursor, source, out) {
        Ok(Some(record)) => match add_to(records, record) {
            Ok(()) => Ok(true),
            Err(refusal) => Err(refusal),
        },
        Ok(None) => Ok(false),
        Err(refusal) => Err(refusal),
    }
}
