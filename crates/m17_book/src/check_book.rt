ghost use Rattle.std.specs.Prelude.{◌≡◌, ◌⊎◌, ℕ, ◌+◌, ◌-◌, ◌^◌, ◌<◌, ◌≤◌, List, [], ◌∷◌, ◌++◌, length, Option, Some, IsTrue, IfOk, IfErr, OnErr, MatchResult};
ghost use Rattle.m17_book.specs.Ahead.{held, IsAhead};
ghost use Rattle.m17_book.specs.Answers.{IsOutside};
ghost use Rattle.m17_book.specs.Book.{IsBook, RefusesBook};
ghost use Rattle.m17_book.specs.Checks.{TakesNoMemory, TellsOfBook, TellsBook};
ghost use Rattle.m17_book.specs.Limits.{told};
ghost use Rattle.m17_book.specs.Reading.{HasReadCause, IsReadersRefusal};
ghost use Rattle.m17_book.specs.Records.{SpellsRecord};
ghost use Rattle.m17_book.specs.Tried.{HasSeen};
ghost use Rattle.m17_book.specs.Versions.{most_book_bytes};
ghost use Rattle.m17_book.specs.Walk.{coming, spot, IsAt, AddsOne, AddsAll, ReadsBook, WrongRecord};
ghost use Rattle.m17_book.specs.declared.head.Head.{Head};
ghost use Rattle.m17_book.specs.declared.record.Record.{Record};
ghost use Rattle.m17_book.specs.declared.refusal.FormRefusal.{FormRefusal};
ghost use Rattle.m17_book.specs.declared.version.Version.TheVariants.{Two};

use crate::checker::Checker;
use crate::cursor::Cursor;
use crate::laws::records_are_clear;
use crate::settle::settle;
use crate::steps::{next_record, pass_header};
use crate::version::Version;
use crate::{Breach, FormRefusal, Report};
use m17_io::{Input, Sink};

/// Whether the source holds a legal book, in fixed memory: it reads record by record to the end of the source, through
/// one buffer, and says of the records what `check` says of them under the limit of the header. Else why the bytes are no
/// book, as `read_book` says it: also where a record breaks a rule, since a book is judged that is one.
pub fn check_book_for<S: Input<K>, K: Sink>(
    s: &mut S,
    out: &K,
) -> Result<Result<Report, Breach>, FormRefusal>
    requires quiet { (K.told out.now).held_back ≡ 0 }
    ensures checked { IfOk result (λ verdict. (bytes : List ℕ) → (S.told s.old).left ≡ Some bytes
        → (head : Head) × (records : List Record) × IsBook Two bytes head records
        × TellsOfBook head.limit verdict records) }
    ensures refused { IfErr result (λ refusal. (bytes : List ℕ) → (S.told s.old).left ≡ Some bytes
        → IsOutside refusal ⊎ RefusesBook Two bytes refusal) }
    ensures nothing_left { IfOk result (λ _. (bytes : List ℕ) → (S.told s.old).left ≡ Some bytes
        → (S.told s.new).left ≡ Some []) }
    ensures no_memory { IfErr result TakesNoMemory }
    ensures cause { HasReadCause (S.told s.old).faults (S.told s.new).faults result }
{
    let mut cursor = Cursor::new();
    let read = follow_book(&mut cursor, s, out);
    settle(Version::Two.most_bytes(), read, &mut cursor, s, out)
}

// What is found of the book: of the records behind the header, under its limit.
fn follow_book<S: Input<K>, K: Sink>(
    cursor: &mut Cursor,
    source: &mut S,
    out: &K,
) -> Result<Result<Report, Breach>, FormRefusal>
    requires quiet { (K.told out.now).held_back ≡ 0 }
    ensures read { (bytes : List ℕ) → cursor.old.place ≡ 0
        → IsAt (spot cursor.old (S.told source.old).left) bytes
        → (records : List Record) × ReadsBook TellsBook Two result bytes records
        (spot cursor.new (S.told source.new).left) }
    ensures no_memory { IfErr result TakesNoMemory }
    ensures cause { HasReadCause (S.told source.old).faults (S.told source.new).faults result }
{
    match pass_header(Version::Two, cursor, source, out) {
        Ok(head) => follow_records(head.limit, cursor, source, out),
        Err(refusal) => Err(refusal),
    }
}

// What is found of each record that is to come, under this limit.
fn follow_records<S: Input<K>, K: Sink>(
    limit: u64,
    cursor: &mut Cursor,
    source: &mut S,
    out: &K,
) -> Result<Result<Report, Breach>, FormRefusal>
    requires quiet { (K.told out.now).held_back ≡ 0 }
    ensures read { (ahead : List ℕ) → IsAt (spot cursor.old (S.told source.old).left) ahead
        → (records : List Record) × IfOk result (λ verdict. TellsOfBook limit verdict records)
        × AddsAll (SpellsRecord Two) (WrongRecord Two) (most_book_bytes Two) result
        (coming cursor.old.place ahead) records (spot cursor.new (S.told source.new).left) }
    ensures no_memory { IfErr result TakesNoMemory }
    ensures cause { HasReadCause (S.told source.old).faults (S.told source.new).faults result }
{
    records_are_clear();
    let most = Version::Two.most_bytes();
    let mut checker = Checker::new(limit);
    'records: loop {
        if cursor.place() > most {
            return Err(FormRefusal::Large { at: most });
        }
        match follow_record(cursor, source, out, &mut checker) {
            Ok(true) => {}
            Ok(false) => return Ok(checker.outcome()),
            Err(refusal) => return Err(refusal),
        }
    }
}

// Checks the next record, and answers whether there was one.
fn follow_record<S: Input<K>, K: Sink>(
    cursor: &mut Cursor,
    source: &mut S,
    out: &K,
    checker: &mut Checker,
) -> Result<bool, FormRefusal>
    requires quiet { (K.told out.now).held_back ≡ 0 }
    ensures read { (limit : ℕ) → (ahead : List ℕ) → (records : List Record)
        → IsAt (spot cursor.old (S.told source.old).left) ahead → HasSeen limit checker.old records
        → length records < 2 ^ 64 - 1 → (now : List Record) × HasSeen limit checker.new now
        × AddsOne (SpellsRecord Two) (WrongRecord Two) result (coming cursor.old.place ahead) records
        now (spot cursor.new (S.told source.new).left) }
    ensures goes_on { IfOk result (λ more. IsTrue more
        → told (cursor.old.place + 1) ≤ cursor.new.place) }
    ensures kinds { IfErr result IsReadersRefusal }
    ensures cause { HasReadCause (S.told source.old).faults (S.told source.new).faults result }
{
    match next_record(Version::Two, cursor, source, out) {
        Ok(Some(found)) => {
            checker.see(&found);
            Ok(true)
        }
        Ok(None) => Ok(false),
        Err(refusal) => Err(refusal),
    }
}
