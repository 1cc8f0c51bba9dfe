ghost use Rattle.std.specs.Prelude.{◌≡◌, ℕ, List, [], ◌++◌, length, All, Some, IfOk, OnOk, OnErr, MatchResult};
ghost use Rattle.std.specs.List.{flat_map};
ghost use Rattle.m17_io.specs.Faults.{HasCause, HasCauses};
ghost use Rattle.m17_io.specs.Sink.{AppendsPrefix};
ghost use Rattle.m17_book.specs.Book.{IsBook};
ghost use Rattle.m17_book.specs.Records.{IsWritable, record_bytes};
ghost use Rattle.m17_book.specs.Versions.{header_of};
ghost use Rattle.m17_book.specs.declared.version.Version.TheVariants.{One};
ghost use Rattle.m17_print.specs.Endings.{failed_device, Comes, Grows};
ghost use Rattle.m17_text_commands.specs.Migrate.{migrated_text, SaysMigrate, PrintsMigrate};
ghost use Rattle.m17_text_commands.specs.Moved.{stopped_by, EndsUnread};
ghost use Rattle.m17_print.specs.declared.ending.TextEnding.TheVariants.{Refused};

use crate::MigrateReason;
use m17_book::{FormRefusal, Head, Record, read_book_1_for, write_header, write_record};
use m17_control::ModuleLetter;
use m17_io::{Input, Sink};
use m17_print::TextEnding;
use m17_values::{Failed, NoMemory};
use std::alloc::Global;

/// Writes a book of version 1 as one of version 2: reads it to its end, and then writes the same module and the same
/// records behind a header with the limit 0. The input is refused with the place and reason of the form of books of
/// version 1, `Large` first of all. Nothing is written before the input was read to its end, and no record is judged.
/// `NoMemory` where there is none for the records, before anything is written.
pub fn migrate<S: Input<K>, K: Sink>(
    alloc: Global,
    input: &mut S,
    out: &mut K,
) -> Result<TextEnding<MigrateReason>, NoMemory>
    // A device is told to have failed exactly where its count of faults rose.
    ensures causes { IfOk result (λ ending.
        HasCauses ((S.told input.old).faults, (K.told out.old).faults)
        ((S.told input.new).faults, (K.told out.new).faults) (failed_device ending)) }
    // What the ending says of the input holds, and what it prints stands written.
    ensures ended { IfOk result (λ ending. (bytes : List ℕ) → (S.told input.old).left ≡ Some bytes →
        Comes SaysMigrate PrintsMigrate ending bytes (S.told input.new).left
        (K.told out.old).written (K.told out.new).written) }
    ensures appended { IfOk result (λ _. Grows (K.told out.old).written (K.told out.new).written) }
    // Without memory nothing is written.
    ensures unwritten { OnErr result ((K.told out.new).written ≡ (K.told out.old).written) }
    ensures no_fault { OnErr result (((S.told input.new).faults ≡ (S.told input.old).faults)
        × ((K.told out.new).faults ≡ (K.told out.old).faults)) }
{
    match read_records(alloc, input, out) {
        Ok(Ok((letter, records))) => match write_book(letter, &records, out) {
            Ok(()) => Ok(TextEnding::Finished),
            Err(_) => Ok(TextEnding::WriteFailed),
        },
        Ok(Err(ending)) => Ok(ending),
        Err(NoMemory) => Err(NoMemory),
    }
}

// Reads the book, whole, once the sink has handed on what it held back. Else how the run ended.
fn read_records<S: Input<K>, K: Sink>(
    alloc: Global,
    input: &mut S,
    out: &mut K,
) -> Result<Result<(ModuleLetter, Vec<Record>), TextEnding<MigrateReason>>, NoMemory>
    ensures causes { IfOk result (λ read.
        HasCauses ((S.told input.old).faults, (K.told out.old).faults)
        ((S.told input.new).faults, (K.told out.new).faults) (stopped_by read)) }
    ensures read { IfOk result (λ read. (bytes : List ℕ) → (S.told input.old).left ≡ Some bytes →
        MatchResult read (λ book. IsBook One bytes (header_of book.0) book.1.items
        × ((S.told input.new).left ≡ Some [])) (EndsUnread bytes)) }
    ensures writable { IfOk result (λ read. IfOk read (λ book. All IsWritable book.1.items)) }
    ensures nothing_written { (K.told out.new).written ≡ (K.told out.old).written }
    ensures no_fault { OnErr result (((S.told input.new).faults ≡ (S.told input.old).faults)
        × ((K.told out.new).faults ≡ (K.told out.old).faults)) }
{
    let Ok(()) = out.flush() else {
        return Ok(Err(TextEnding::WriteFailed));
    };
    match read_book_1_for(alloc, input, out) {
        Ok(book) => Ok(Ok(book)),
        Err(FormRefusal::NoMemory) => Err(NoMemory),
        Err(FormRefusal::ReadFault) => Ok(Err(TextEnding::ReadFailed)),
        Err(FormRefusal::Cut { at }) => Ok(Err(refused(at, MigrateReason::Cut))),
        Err(FormRefusal::Kind { at, byte }) => Ok(Err(refused(at, MigrateReason::Kind(byte)))),
        Err(FormRefusal::Field { at }) => Ok(Err(refused(at, MigrateReason::Field))),
        Err(FormRefusal::Large { at }) => Ok(Err(refused(at, MigrateReason::Large))),
    }
}

// The ending of a run whose input is refused.
fn refused(place: u64, reason: MigrateReason) -> TextEnding<MigrateReason>
    ensures { result ≡ Refused place reason }
{
    TextEnding::Refused { place, reason }
}

// Writes the book of version 2 of this module and these records, with the limit 0.
fn write_book<K: Sink>(letter: ModuleLetter, records: &[Record], out: &mut K) -> Result<(), Failed>
    requires { All IsWritable records.now }
    ensures cause { HasCause (K.told out.old).faults (K.told out.new).faults result }
    ensures ok { OnOk result ((before : List ℕ) → (K.told out.old).written ≡ Some before
        → (K.told out.new).written ≡ Some (before ++ migrated_text letter records.now)) }
    ensures err { OnErr result ((before : List ℕ) → (K.told out.old).written ≡ Some before
        → AppendsPrefix before (migrated_text letter records.now) (K.told out.new).written) }
{
    let header = write_header(&head_of(letter));
    match out.write(&header) {
        Ok(()) => write_records(records, out),
        Err(failed) => Err(failed),
    }
}

// The header of the new book: its module, and no limit.
fn head_of(letter: ModuleLetter) -> Head
    ensures { result ≡ header_of letter }
{
    Head {
        module: letter,
        limit: 0,
    }
}

// Writes the records, one behind the other.
fn write_records<K: Sink>(records: &[Record], out: &mut K) -> Result<(), Failed>
    requires { All IsWritable records.now }
    ensures cause { HasCause (K.told out.old).faults (K.told out.new).faults result }
    ensures ok { OnOk result ((before : List ℕ) → (K.told out.old).written ≡ Some before
        → (K.told out.new).written ≡ Some (before ++ flat_map record_bytes records.now)) }
    ensures err { OnErr result ((before : List ℕ) → (K.told out.old).written ≡ Some before
        → AppendsPrefix before (flat_map record_bytes records.now) (K.told out.new).written) }
{
    for one in records {
        match out.write(write_record(one).as_slice()) {
            Ok(()) => {}
            Err(failed) => return Err(failed),
        }
    }
    Ok(())
}
