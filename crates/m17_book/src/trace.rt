ghost use Rattle.std.specs.Prelude.{◌≡◌, ◌⊎◌, ℕ, ◌+◌, ◌<◌, ◌≤◌, List, [], ◌∷◌, ◌++◌, length, Option, Some, IsTrue, IfOk, IfErr, OnErr, OnOk, MatchResult};
ghost use Rattle.m17_values.specs.declared.heard.Heard.{Heard};
ghost use Rattle.m17_values.specs.declared.heard.Heard.TheVariants.{End};
ghost use Rattle.m17_book.specs.Ahead.{held, IsAhead};
ghost use Rattle.m17_book.specs.Answers.{HasEnd, IsOutside};
ghost use Rattle.m17_book.specs.Book.{IsTrace, RefusesTrace};
ghost use Rattle.m17_book.specs.Entries.{SpellsEntry};
ghost use Rattle.m17_book.specs.Reading.{HasReadCause};
ghost use Rattle.m17_book.specs.Walk.{coming, spot, IsAt, AddsOne, AddsAll, PassesMagic, ReadsTrace, WrongEntry};
ghost use Rattle.m17_book.specs.declared.refusal.FormRefusal.{FormRefusal};

use crate::FormRefusal;
use crate::cursor::Cursor;
use crate::form::{MOST_ENTRIES, MOST_TRACE_BYTES};
use crate::laws::traces_are_exact;
use crate::settle::{add_to, finish};
use crate::silent::Silent;
use crate::steps::{pass_magic, take_entry};
use m17_io::{Input, Sink, Source};
use m17_values::Heard;
use std::alloc::Global;

/// What the link of a trace heard: the entries that the bytes of the source spell, and then the end. It reads to the
/// end of the source, through one buffer, and keeps no bytes. Else why the bytes are no trace: `Cut`, `Kind` and
/// `Field` with their places in the input; before these `Large` at 67,108,864 where there are more bytes than that; and
/// in its turn `Large` where entry 1,000,000, counted from 0, begins. `ReadFault` where the source failed, `NoMemory`
/// where there is none for the list.
pub fn read_trace<S: Source>(alloc: Global, s: &mut S) -> Result<Vec<Heard>, FormRefusal>
    ensures trace { IfOk result (λ heard. (bytes : List ℕ) → (S.told s.old).left ≡ Some bytes
        → IsTrace bytes heard.items) }
    ensures refused { IfErr result (λ refusal. (bytes : List ℕ) → (S.told s.old).left ≡ Some bytes
        → IsOutside refusal ⊎ RefusesTrace bytes refusal) }
    ensures each_trace { (bytes : List ℕ) → (heard : List Heard) → (S.told s.old).left ≡ Some bytes
        → IsTrace bytes heard → MatchResult result (λ found. found.items ≡ heard) IsOutside }
    ensures each_refusal { (bytes : List ℕ) → (refusal : FormRefusal)
        → (S.told s.old).left ≡ Some bytes → RefusesTrace bytes refusal
        → MatchResult result (λ _. ⊥) (λ told. IsOutside told ⊎ (told ≡ refusal)) }
    ensures nothing_left { IfOk result (λ _. (bytes : List ℕ) → (S.told s.old).left ≡ Some bytes
        → (S.told s.new).left ≡ Some []) }
    ensures ends { IfOk result (λ heard. HasEnd heard.items) }
    ensures cause { HasReadCause (S.told s.old).faults (S.told s.new).faults result }
{
    read_trace_for(alloc, s, &Silent)
}

/// The same for a command that prints into this sink: its source is read while the sink holds nothing back, and the
/// sink is left as it is.
pub fn read_trace_for<S: Input<K>, K: Sink>(
    alloc: Global,
    s: &mut S,
    out: &K,
) -> Result<Vec<Heard>, FormRefusal>
    requires quiet { (K.told out.now).held_back ≡ 0 }
    ensures trace { IfOk result (λ heard. (bytes : List ℕ) → (S.told s.old).left ≡ Some bytes
        → IsTrace bytes heard.items) }
    ensures refused { IfErr result (λ refusal. (bytes : List ℕ) → (S.told s.old).left ≡ Some bytes
        → IsOutside refusal ⊎ RefusesTrace bytes refusal) }
    ensures each_trace { (bytes : List ℕ) → (heard : List Heard) → (S.told s.old).left ≡ Some bytes
        → IsTrace bytes heard → MatchResult result (λ found. found.items ≡ heard) IsOutside }
    ensures each_refusal { (bytes : List ℕ) → (refusal : FormRefusal)
        → (S.told s.old).left ≡ Some bytes → RefusesTrace bytes refusal
        → MatchResult result (λ _. ⊥) (λ told. IsOutside told ⊎ (told ≡ refusal)) }
    ensures nothing_left { IfOk result (λ _. (bytes : List ℕ) → (S.told s.old).left ≡ Some bytes
        → (S.told s.new).left ≡ Some []) }
    ensures ends { IfOk result (λ heard. HasEnd heard.items) }
    ensures cause { HasReadCause (S.told s.old).faults (S.told s.new).faults result }
{
    traces_are_exact();
    let mut cursor = Cursor::new();
    let mut heard = Vec::new(alloc);
    let read = add_trace(&mut cursor, s, out, &mut heard);
    finish(MOST_TRACE_BYTES, read, heard, &mut cursor, s, out)
}

/// Adds the entries of a trace and then the end. The size of the input is looked at only so far as it was read.
fn add_trace<S: Input<K>, K: Sink>(
    cursor: &mut Cursor,
    source: &mut S,
    out: &K,
    heard: &mut Vec<Heard>,
) -> Result<(), FormRefusal>
    requires quiet { (K.told out.now).held_back ≡ 0 }
    requires fits { heard.old.items ≡ [] }
    ensures read { (bytes : List ℕ) → cursor.old.place ≡ 0
        → IsAt (spot cursor.old (S.told source.old).left) bytes
        → ReadsTrace result bytes heard.new.items (spot cursor.new (S.told source.new).left) }
    ensures ends { OnOk result (HasEnd heard.new.items) }
    ensures cause { HasReadCause (S.told source.old).faults (S.told source.new).faults result }
{
    match pass_magic(cursor, source, out) {
        Ok(()) => match add_entries(cursor, source, out, heard) {
            Ok(()) => add_to(heard, Heard::End),
            Err(refusal) => Err(refusal),
        },
        Err(refusal) => Err(refusal),
    }
}

/// Adds each entry that is to come.
fn add_entries<S: Input<K>, K: Sink>(
    cursor: &mut Cursor,
    source: &mut S,
    out: &K,
    heard: &mut Vec<Heard>,
) -> Result<(), FormRefusal>
    requires quiet { (K.told out.now).held_back ≡ 0 }
    requires fits { heard.old.items ≡ [] }
    ensures read { (ahead : List ℕ) → IsAt (spot cursor.old (S.told source.old).left) ahead
        → AddsAll SpellsEntry WrongEntry 67108864 result (coming cursor.old.place ahead)
        heard.new.items (spot cursor.new (S.told source.new).left) }
    ensures few { IfOk result (λ _. length heard.new.items ≤ 1000000) }
    ensures cause { HasReadCause (S.told source.old).faults (S.told source.new).faults result }
{
    'entries: loop {
        if cursor.place() > MOST_TRACE_BYTES {
            return Err(FormRefusal::Large {
                at: MOST_TRACE_BYTES,
            });
        }
        match add_entry(cursor, source, out, heard) {
            Ok(true) => {}
            Ok(false) => return Ok(()),
            Err(refusal) => return Err(refusal),
        }
    }
}

/// Adds the next entry, and answers whether there was one.
fn add_entry<S: Input<K>, K: Sink>(
    cursor: &mut Cursor,
    source: &mut S,
    out: &K,
    heard: &mut Vec<Heard>,
) -> Result<bool, FormRefusal>
    requires quiet { (K.told out.now).held_back ≡ 0 }
    requires fits { length heard.old.items ≤ 1000000 }
    ensures read { (ahead : List ℕ) → IsAt (spot cursor.old (S.told source.old).left) ahead
        → AddsOne SpellsEntry WrongEntry result (coming cursor.old.place ahead)
        heard.old.items heard.new.items (spot cursor.new (S.told source.new).left) }
    ensures few { length heard.new.items ≤ 1000000 }
    ensures more { IfOk result (λ more. IsTrue more
        → length heard.new.items ≡ length heard.old.items + 1) }
    ensures cause { HasReadCause (S.told source.old).faults (S.told source.new).faults result }
{
    let Ok(()) = cursor.fill(source, out) else {
        return Err(FormRefusal::ReadFault);
    };
    if cursor.held().is_empty() {
        return Ok(false);
    }
    if heard.len() >= MOST_ENTRIES {
        return Err(FormRefusal::Large { at: cursor.place() });
    }
    match take_entry(cursor) {
        Ok(entry) => match add_to(heard, entry) {
            Ok(()) => Ok(true),
            Err(refusal) => Err(refusal),
        },
        Err(refusal) => Err(refusal),
    }
}
