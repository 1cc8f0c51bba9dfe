ghost use Rattle.std.specs.Prelude.{◌≡◌, ℕ, ◌<◌, List, [], Option, None, Some, IfSome, IfNone, option_and_then};
ghost use Rattle.m17_io.specs.Faults.{HasCauses};
ghost use Rattle.m17_print.specs.Endings.{failed_device, Comes, Grows};
ghost use Rattle.m17_text_commands.specs.Lines.{most_lines};
ghost use Rattle.m17_text_commands.specs.Reading.{HasNoFeed};
ghost use Rattle.m17_text_commands.specs.Show.{SaysShow, PrintsShow};
ghost use Rattle.m17_text_commands.specs.ShowRun.{AreShown, GoesOn};
ghost use Rattle.m17_text_commands.specs.Pending.{pending};

use crate::ShowReason;
use crate::line_reader::{LineReader, Next};
use crate::show_line::show_line;
use m17_io::{Fault, Input, Sink};
use m17_print::{Line, TextEnding};

/// How many lines `show` takes.
pub const LINES_MAX: u64 = 1_000_000;

/// Prints each line of hex digits as the packet that it spells, or why it spells none. A line ends at a line feed or with
/// the input, and one carriage return before its end is dropped. Each line is printed when it is there: before `show`
/// would wait for more input, the sink hands on what was written. It needs no memory that grows with the input.
///
/// The ending is `Finished` where the whole input was shown; `Refused` at the number of the first line, from 0, that is
/// `Large` (line 1,000,000), `Long` (more than 256 bytes), `Odd` (an odd number of bytes) or that has a byte that is no
/// hex `Digit`, in this order; `ReadFailed` or `WriteFailed` where a device failed. The lines before stand written.
pub fn show<S: Input<K>, K: Sink>(input: &mut S, out: &mut K) -> TextEnding<ShowReason>
    // A device is told to have failed exactly where its count of faults rose.
    ensures causes { HasCauses ((S.told input.old).faults, (K.told out.old).faults)
        ((S.told input.new).faults, (K.told out.new).faults) (failed_device result) }
    // What the ending says of the input holds, and what it prints stands written.
    ensures ended { (bytes : List ℕ) → (S.told input.old).left ≡ Some bytes →
        Comes SaysShow PrintsShow result bytes (S.told input.new).left
        (K.told out.old).written (K.told out.new).written }
    ensures appended { Grows (K.told out.old).written (K.told out.new).written }
{
    let mut reader = LineReader::new();
    match show_lines(&mut reader, input, out) {
        Some(ending) => ending,
        None => end_at_limit(&mut reader, input, out),
    }
}

// Shows the lines one by one. `None` where as many as may come have come.
fn show_lines<S: Input<K>, K: Sink>(
    reader: &mut LineReader,
    input: &mut S,
    out: &mut K,
) -> Option<TextEnding<ShowReason>>
    ensures causes { HasCauses ((S.told input.old).faults, (K.told out.old).faults)
        ((S.told input.new).faults, (K.told out.new).faults)
        (option_and_then failed_device result) }
    ensures shows { IfSome result (λ ending. (bytes : List ℕ) (first : Option (List ℕ))
        → AreShown bytes 0 (pending reader.old) (S.told input.old).left first
        (K.told out.old).written
        → Comes SaysShow PrintsShow ending bytes (S.told input.new).left first
        (K.told out.new).written) }
    ensures full { IfNone result ((bytes : List ℕ) (first : Option (List ℕ))
        → AreShown bytes 0 (pending reader.old) (S.told input.old).left first
        (K.told out.old).written
        → AreShown bytes most_lines (pending reader.new) (S.told input.new).left first
        (K.told out.new).written) }
    ensures appended { Grows (K.told out.old).written (K.told out.new).written }
{
    let mut printed = Line::new();
    for number in 0..LINES_MAX {
        let ending = show_next(reader, number, &mut printed, input, out);
        if ending.is_some() {
            return ending;
        }
    }
    None
}

// Shows the next line. The ending, where the run comes to its end with it.
fn show_next<S: Input<K>, K: Sink>(
    reader: &mut LineReader,
    number: u64,
    printed: &mut Line,
    input: &mut S,
    out: &mut K,
) -> Option<TextEnding<ShowReason>>
    requires { number < most_lines }
    ensures causes { HasCauses ((S.told input.old).faults, (K.told out.old).faults)
        ((S.told input.new).faults, (K.told out.new).faults)
        (option_and_then failed_device result) }
    ensures goes_on { (bytes : List ℕ) (first : Option (List ℕ))
        → AreShown bytes number (pending reader.old) (S.told input.old).left first
        (K.told out.old).written
        → GoesOn bytes number first result (pending reader.new) (S.told input.new).left
        (K.told out.new).written }
    ensures appended { Grows (K.told out.old).written (K.told out.new).written }
{
    match reader.next(input, out) {
        Ok(Next::Line(size)) => match show_line(&reader.pending()[..size], printed, out) {
            Ok(()) => {
                reader.take(size + 1);
                None
            }
            Err(not_shown) => Some(not_shown.ending_at(number)),
        },
        Ok(Next::Long) => Some(TextEnding::Refused {
            place: number,
            reason: ShowReason::Long,
        }),
        Ok(Next::Last) => Some(show_last(reader.pending(), number, printed, out)),
        Err(Fault::Read) => Some(TextEnding::ReadFailed),
        Err(Fault::Write) => Some(TextEnding::WriteFailed),
    }
}

// Shows what stands after the last line feed, a line if it has a byte, and so ends the run.
fn show_last<K: Sink>(
    rest: &[u8],
    number: u64,
    printed: &mut Line,
    out: &mut K,
) -> TextEnding<ShowReason>
    requires few { number < most_lines }
    requires no_feed { HasNoFeed rest.now }
    ensures causes { (reads : ℕ) → HasCauses (reads, (K.told out.old).faults)
        (reads, (K.told out.new).faults) (failed_device result) }
    ensures shows { (bytes : List ℕ) (first : Option (List ℕ))
        → AreShown bytes number rest.now (Some []) first (K.told out.old).written
        → Comes SaysShow PrintsShow result bytes (Some []) first (K.told out.new).written }
    ensures appended { Grows (K.told out.old).written (K.told out.new).written }
{
    if rest.is_empty() {
        return TextEnding::Finished;
    }
    match show_line(rest, printed, out) {
        Ok(()) => TextEnding::Finished,
        Err(not_shown) => not_shown.ending_at(number),
    }
}

// Ends a run that has shown as many lines as may come: a single byte more is too much.
fn end_at_limit<S: Input<K>, K: Sink>(
    reader: &mut LineReader,
    input: &mut S,
    out: &mut K,
) -> TextEnding<ShowReason>
    ensures causes { HasCauses ((S.told input.old).faults, (K.told out.old).faults)
        ((S.told input.new).faults, (K.told out.new).faults) (failed_device result) }
    ensures shows { (bytes : List ℕ) (first : Option (List ℕ))
        → AreShown bytes most_lines (pending reader.old) (S.told input.old).left first
        (K.told out.old).written
        → Comes SaysShow PrintsShow result bytes (S.told input.new).left first
        (K.told out.new).written }
    ensures nothing_written { (K.told out.new).written ≡ (K.told out.old).written }
{
    let large = TextEnding::Refused {
        place: LINES_MAX,
        reason: ShowReason::Large,
    };
    if !reader.pending().is_empty() {
        return large;
    }
    match reader.read_more(input, out) {
        Ok(0) => TextEnding::Finished,
        Ok(_) => large,
        Err(Fault::Read) => TextEnding::ReadFailed,
        Err(Fault::Write) => TextEnding::WriteFailed,
    }
}
