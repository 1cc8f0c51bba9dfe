ghost use Rattle.std.specs.Prelude.{◌≡◌, ℕ, ◌*◌, List, Option, None, Some, IfOk, OnErr, IfSome, IfNone, option_and_then};
ghost use Rattle.m17_io.specs.Faults.{HasCauses};
ghost use Rattle.m17_print.specs.Endings.{failed_device, Comes, Grows};
ghost use Rattle.m17_text_commands.specs.Judge.{joins, talkers, SaysJudge, PrintsJudge};
ghost use Rattle.m17_text_commands.specs.Records.{most_records};
ghost use Rattle.m17_text_commands.specs.JudgeRun.{AreJudged, LooksPast};
ghost use Rattle.m17_text_commands.specs.Table.{TableStandsFor};

use crate::JudgeReason;
use crate::judging::{RECORD_BYTES, judge_record};
use crate::table::Table;
use m17_floor::laws;
use m17_io::{Fault, Input, Sink, fill};
use m17_print::{Line, TextEnding};
use m17_values::NoMemory;
use std::alloc::Global;

/// How many records `judge` takes.
pub const RECORDS_MAX: u64 = 1_000_000;

// Judges the records one by one. `None` where as many as may come have come.
fn judge_records<S: Input<K>, K: Sink>(
    table: &mut Table,
    input: &mut S,
    out: &mut K,
) -> Option<TextEnding<JudgeReason>>
    requires { TableStandsFor (joins talkers) table.old }
    ensures causes { HasCauses ((S.told input.old).faults, (K.told out.old).faults)
        ((S.told input.new).faults, (K.told out.new).faults)
        (option_and_then failed_device result) }
    ensures ended { IfSome result (λ ending. (bytes : List ℕ)
        → (S.told input.old).left ≡ Some bytes →
        Comes SaysJudge PrintsJudge ending bytes (S.told input.new).left
        (K.told out.old).written (K.told out.new).written) }
    ensures full { IfNone result ((bytes : List ℕ) → (S.told input.old).left ≡ Some bytes →
        AreJudged bytes most_records (S.told input.new).left
        (K.told out.old).written (K.told out.new).written) }
    ensures appended { Grows (K.told out.old).written (K.told out.new).written }
{
    laws::later_acts_change_no_verdict();
    let mut line = Line::new();
    let mut record = [0u8; RECORD_BYTES];
    for index in 0..RECORDS_MAX {
        match fill(input, out, &mut record) {
            Ok(RECORD_BYTES) => {}
            Ok(0) => return Some(TextEnding::Finished),
            Ok(n) => {
                return Some(TextEnding::Refused {
                    place: 64 * index + n as u64,
                    reason: JudgeReason::Cut,
                });
            }
            Err(Fault::Read) => return Some(TextEnding::ReadFailed),
            Err(Fault::Write) => return Some(TextEnding::WriteFailed),
        }
        judge_record(table, index, &record, &mut line);
        match out.write(line.bytes()) {
            Ok(()) => {}
            Err(_) => return Some(TextEnding::WriteFailed),
        }
    }
    None
}

// Looks whether there is a byte past the last record that may come.
fn look_past<S: Input<K>, K: Sink>(input: &mut S, out: &mut K) -> TextEnding<JudgeReason>
    ensures causes { HasCauses ((S.told input.old).faults, (K.told out.old).faults)
        ((S.told input.new).faults, (K.told out.new).faults) (failed_device result) }
    ensures looks { (left : List ℕ) → (S.told input.old).left ≡ Some left
        → LooksPast result left (S.told input.new).left }
    ensures nothing_written { (K.told out.new).written ≡ (K.told out.old).written }
{
    let mut next = [0u8; 1];
    match fill(input, out, &mut next) {
        Ok(0) => TextEnding::Finished,
        Ok(_) => TextEnding::Refused {
            place: 64 * RECORDS_MAX,
            reason: JudgeReason::Large,
        },
        Err(Fault::Read) => TextEnding::ReadFailed,
        Err(Fault::Write) => TextEnding::WriteFailed,
    }
}

/// Judges records of 64 bytes, each with its moment in milliseconds (8 bytes, big-endian), its talker (2 bytes) and its
/// stream packet (54 bytes), and writes a line for each: the verdict of the floor rule, with 180 seconds as the limit on
/// talking, or why the packet is refused. Each record is read, judged and printed before the next is read, as the tests
/// show. The input is refused as `Cut` where it ends inside a record, at its length, and as `Large` where there is a byte
/// of record 1,000,000, at 64,000,000; the lines before that stand. `NoMemory` where there is none for the talkers.
pub fn judge<S: Input<K>, K: Sink>(
    alloc: Global,
    input: &mut S,
    out: &mut K,
) -> Result<TextEnding<JudgeReason>, NoMemory>
    // A device is told to have failed exactly where its count of faults rose.
    ensures causes { IfOk result (λ ending. HasCauses
        ((S.told input.old).faults, (K.told out.old).faults)
        ((S.told input.new).faults, (K.told out.new).faults) (failed_device ending)) }
    // What the ending says of the input holds, and what it prints stands written.
    ensures ended { IfOk result (λ ending. (bytes : List ℕ) → (S.told input.old).left ≡ Some bytes →
        Comes SaysJudge PrintsJudge ending bytes (S.told input.new).left
        (K.told out.old).written (K.told out.new).written) }
    ensures appended { Grows (K.told out.old).written (K.told out.new).written }
    // Want of memory comes before the devices are touched.
    ensures untouched { OnErr result ((input.new ≡ input.old) × (out.new ≡ out.old)) }
{
    let mut table = Table::make(alloc)?;
    match judge_records(&mut table, input, out) {
        Some(ending) => Ok(ending),
        None => Ok(look_past(input, out)),
    }
}
