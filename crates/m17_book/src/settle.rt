ghost use Rattle.std.specs.Prelude.{◌≡◌, ◌↔◌, ◌<◌, ℕ, ◌+◌, ◌-◌, ◌^◌, ◌∷◌, [], ◌++◌, List, length, Ok, IsOk, IsErr, IsTrue, IfOk, OnOk, OnErr, IfErr};
ghost use Rattle.m17_io.specs.Faults.{HasCause};
ghost use Rattle.m17_book.specs.Ahead.{held, IsAhead};
ghost use Rattle.m17_book.specs.Answers.{IsOutside};
ghost use Rattle.m17_book.specs.Checks.{TakesNoMemory};
ghost use Rattle.m17_book.specs.Limits.{told};
ghost use Rattle.m17_book.specs.Reading.{HasReadCause};
ghost use Rattle.m17_book.specs.Walk.{IsCutAt, IsSettled};
ghost use Rattle.m17_book.specs.declared.refusal.FormRefusal.{FormRefusal};
ghost use Rattle.m17_book.specs.declared.refusal.FormRefusal.TheVariants.{NoMemory, ReadFault};

use crate::FormRefusal;
use crate::cursor::Cursor;
use m17_io::{Input, Sink};
use m17_values::Failed;

/// Adds a value at the end of the list.
#[inline]
pub(crate) fn add_to<T: Drop>(list: &mut Vec<T>, value: T) -> Result<(), FormRefusal>
    ensures added { OnOk result (list.new.items ≡ list.old.items ++ value ∷ []) }
    ensures no_memory { IfErr result (λ refusal. refusal ≡ NoMemory) }
    ensures kept { OnErr result (list.new.items ≡ list.old.items) }
{
    match list.push(value) {
        Ok(()) => Ok(()),
        Err(_) => Err(FormRefusal::NoMemory),
    }
}

/// The list that was read, or why it was not, once that is settled.
pub(crate) fn finish<T: Drop, S: Input<K>, K: Sink>(
    most: u64,
    read: Result<(), FormRefusal>,
    list: Vec<T>,
    cursor: &mut Cursor,
    source: &mut S,
    out: &K,
) -> Result<Vec<T>, FormRefusal>
    requires quiet { (K.told out.now).held_back ≡ 0 }
    requires bound { most < 2 ^ 64 - 1 }
    ensures ok { IfOk result (λ found. IsOk read × (found.items ≡ list.items)
        × (source.new ≡ source.old)) }
    ensures err { OnErr result (IsErr read) }
    ensures outside { IfErr read (λ found. IsOutside found → IfErr result IsOutside) }
    ensures settled { IfErr read (λ found. (total : ℕ) → (ahead : List ℕ)
        → IsAhead (held cursor.old) (S.told source.old).left ahead
        → told total ≡ told (cursor.old.place + length ahead) → IsCutAt total found
        → IfErr result (IsSettled most total found)) }
    ensures cause { (before : ℕ) → HasReadCause before (S.told source.old).faults read
        → HasReadCause before (S.told source.new).faults result }
{
    match settle(most, read, cursor, source, out) {
        Ok(()) => Ok(list),
        Err(refusal) => Err(refusal),
    }
}

/// What was read of an input, or why it was not: a refusal of the bytes gives way to the one that there are more of them
/// than `most`, so the input is gone through to its end, or past the bound.
pub(crate) fn settle<T, S: Input<K>, K: Sink>(
    most: u64,
    read: Result<T, FormRefusal>,
    cursor: &mut Cursor,
    source: &mut S,
    out: &K,
) -> Result<T, FormRefusal>
    requires quiet { (K.told out.now).held_back ≡ 0 }
    requires bound { most < 2 ^ 64 - 1 }
    ensures ok { IfOk result (λ value. (read ≡ Ok value) × (source.new ≡ source.old)) }
    ensures err { OnErr result (IsErr read) }
    ensures outside { IfErr read (λ found. IsOutside found → IfErr result IsOutside) }
    ensures settled { IfErr read (λ found. (total : ℕ) → (ahead : List ℕ)
        → IsAhead (held cursor.old) (S.told source.old).left ahead
        → told total ≡ told (cursor.old.place + length ahead) → IsCutAt total found
        → IfErr result (IsSettled most total found)) }
    ensures no_memory { IfErr read TakesNoMemory → IfErr result TakesNoMemory }
    ensures cause { (before : ℕ) → HasReadCause before (S.told source.old).faults read
        → HasReadCause before (S.told source.new).faults result }
{
    match read {
        Ok(value) => Ok(value),
        Err(FormRefusal::NoMemory) => Err(FormRefusal::NoMemory),
        Err(FormRefusal::ReadFault) => Err(FormRefusal::ReadFault),
        Err(found) => match is_large(most, found, cursor, source, out) {
            Ok(true) => Err(FormRefusal::Large { at: most }),
            Ok(false) => Err(found),
            Err(_) => Err(FormRefusal::ReadFault),
        },
    }
}

/// Whether the input has more bytes than the bound, where this refusal was found. The place of a cut is its length.
fn is_large<S: Input<K>, K: Sink>(
    most: u64,
    found: FormRefusal,
    cursor: &mut Cursor,
    source: &mut S,
    out: &K,
) -> Result<bool, Failed>
    requires quiet { (K.told out.now).held_back ≡ 0 }
    requires bound { most < 2 ^ 64 - 1 }
    ensures large { IfOk result (λ large. (total : ℕ) → (ahead : List ℕ)
        → IsAhead (held cursor.old) (S.told source.old).left ahead
        → told total ≡ told (cursor.old.place + length ahead) → IsCutAt total found
        → IsTrue large ↔ (most < total)) }
    ensures cause { HasCause (S.told source.old).faults (S.told source.new).faults result }
{
    match found {
        FormRefusal::Cut { at } => Ok(at > most),
        _ => cursor.goes_too_far(most, source, out),
    }
}
