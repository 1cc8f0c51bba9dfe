ghost use Rattle.std.specs.Prelude.{◌≡◌, ◌≤◌, ℕ, List, [], Some, IfErr, MatchResult};
ghost use Rattle.m17_io.specs.Faults.{HasCauses};
ghost use Rattle.m17_print.specs.Endings.{failed_device, Comes, Grows};
ghost use Rattle.m17_print.specs.Line.{room};
ghost use Rattle.m17_text_commands.specs.Check.{legal_line, SaysCheck, PrintsCheck};
ghost use Rattle.m17_text_commands.specs.Judged.{reason_of, stopped_by, HasJudged, Prints};
ghost use Rattle.m17_print.specs.declared.ending.TextEnding.TheVariants.{Refused};

use crate::CheckReason;
use m17_book::{Breach, FormRefusal, Report, Rule, check_book_for};
use m17_io::{Input, Sink};
use m17_print::{Line, TextEnding};

/// Checks a book under the limit of its header: reads it to its end, and writes the line of a legal one, as
/// `legal 12 records 3 streams 9 admitted`.
/// Nothing is written before the input was read to its end. The input is refused with the place and reason of the form of
/// books, `Large` first of all; and a book that isn't legal with the number of its first record that breaks a rule, and
/// that rule: `Moment`, `Member` or `Verdict`. It takes no memory.
pub fn check<S: Input<K>, K: Sink>(input: &mut S, out: &mut K) -> TextEnding<CheckReason>
    // A device is told to have failed exactly where its count of faults rose.
    ensures causes { HasCauses ((S.told input.old).faults, (K.told out.old).faults)
        ((S.told input.new).faults, (K.told out.new).faults) (failed_device result) }
    // What the ending says of the input holds, and what it prints stands written.
    ensures ended { (bytes : List ℕ) → (S.told input.old).left ≡ Some bytes →
        Comes SaysCheck PrintsCheck result bytes (S.told input.new).left
        (K.told out.old).written (K.told out.new).written }
    ensures appended { Grows (K.told out.old).written (K.told out.new).written }
{
    match read_report(input, out) {
        Ok(report) => print_report(&report, out),
        Err(ending) => ending,
    }
}

// Reads the book once the sink has handed on what it held back: its report, or how the run ended.
fn read_report<S: Input<K>, K: Sink>(
    input: &mut S,
    out: &mut K,
) -> Result<Report, TextEnding<CheckReason>>
    ensures causes { HasCauses ((S.told input.old).faults, (K.told out.old).faults)
        ((S.told input.new).faults, (K.told out.new).faults) (stopped_by result) }
    ensures judged { (bytes : List ℕ) → (S.told input.old).left ≡ Some bytes
        → HasJudged result bytes (S.told input.new).left }
    ensures nothing_written { (K.told out.new).written ≡ (K.told out.old).written }
{
    let Ok(()) = out.flush() else {
        return Err(TextEnding::WriteFailed);
    };
    match check_book_for(input, out) {
        Ok(Ok(report)) => Ok(report),
        Ok(Err(breach)) => Err(broken(&breach)),
        Err(FormRefusal::Cut { at }) => Err(refused(at, CheckReason::Cut)),
        Err(FormRefusal::Kind { at, byte }) => Err(refused(at, CheckReason::Kind(byte))),
        Err(FormRefusal::Field { at }) => Err(refused(at, CheckReason::Field)),
        Err(FormRefusal::Large { at }) => Err(refused(at, CheckReason::Large)),
        Err(FormRefusal::ReadFault) => Err(TextEnding::ReadFailed),
        Err(FormRefusal::NoMemory) => unreachable!(),
    }
}

// The ending of a run whose input is refused.
fn refused(place: u64, reason: CheckReason) -> TextEnding<CheckReason>
    ensures { result ≡ Refused place reason }
{
    TextEnding::Refused { place, reason }
}

// The ending of a run whose book isn't legal.
fn broken(breach: &Breach) -> TextEnding<CheckReason>
    ensures { result ≡ Refused breach.now.position (reason_of breach.now.rule) }
{
    let reason = match breach.rule {
        Rule::Moment => CheckReason::Moment,
        Rule::Member => CheckReason::Member,
        Rule::Verdict => CheckReason::Verdict,
    };
    refused(breach.position, reason)
}

// Writes the line of a legal book.
fn print_report<K: Sink>(report: &Report, out: &mut K) -> TextEnding<CheckReason>
    ensures written { Prints result (legal_line report.now) (K.told out.old) (K.told out.new) }
{
    let mut line = Line::new();
    make_line(report, &mut line);
    match out.write(line.bytes()) {
        Ok(()) => TextEnding::Finished,
        Err(_) => TextEnding::WriteFailed,
    }
}

// Makes the line of a legal book.
fn make_line(report: &Report, line: &mut Line)
    requires { line.old ≡ [] }
    ensures { line.new ≡ legal_line report.now }
{
    line.push_text("legal ");
    line.push_number(report.records);
    line.push_text(" records ");
    line.push_number(report.streams);
    line.push_text(" streams ");
    line.push_number(report.admitted);
    line.push_text(" admitted\n");
}
