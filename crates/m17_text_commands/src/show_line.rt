ghost use Rattle.std.specs.Prelude.{◌≡◌, ℕ, ◌++◌, List, OnOk, IfErr};
ghost use Rattle.m17_io.specs.Faults.{HasCauses};
ghost use Rattle.m17_print.specs.Endings.{Grows};
ghost use Rattle.m17_print.specs.Line.{IsBegun, CanEnd};
ghost use Rattle.m17_text_commands.specs.Lines.{content_of};
ghost use Rattle.m17_text_commands.specs.ShowRun.{RefusesContent, ComesOfLine, failed_at_line};
ghost use Rattle.m17_text_commands.specs.Show.{SaysOfBytes, IsPrintedFor};

use crate::ShowReason;
use crate::not_shown::NotShown;
use hex::FromHexError;
use m17_io::Sink;
use m17_print::Line;

/// How many hex digits a line may have, two for each byte of the packet.
pub const LINE_DIGITS: usize = 256;

// What a line holds: its bytes, but for one carriage return at its end.
#[inline]
fn content(line: &[u8]) -> &[u8]
    ensures { result.now ≡ content_of line.now }
{
    match line {
        [content @ .., b'\r'] => content,
        _ => line,
    }
}

// Appends what the bytes spell as a packet, or why they spell none.
#[inline]
fn push_reading(bytes: &[u8], printed: &mut Line)
    requires { IsBegun printed.old }
    ensures said { (text : List ℕ) × (printed.new ≡ printed.old ++ text)
        × SaysOfBytes bytes.now text }
    ensures ends { CanEnd printed.new }
{
    match m17_control::decode(bytes) {
        Ok(packet) => printed.push_packet(&packet),
        Err(refusal) => printed.push_refusal(&refusal),
    }
}

// Makes the printed line of a line, or tells why it is refused.
#[inline]
fn make_line(line: &[u8], printed: &mut Line) -> Result<(), ShowReason>
    ensures shown { OnOk result (IsPrintedFor line.now printed.new) }
    ensures refused { IfErr result (RefusesContent (content_of line.now)) }
{
    let digits = content(line);
    if digits.len() > LINE_DIGITS {
        return Err(ShowReason::Long);
    }
    let mut buffer = [0u8; LINE_DIGITS / 2];
    let bytes = &mut buffer[..digits.len() / 2];
    match hex::decode_to_slice(digits, bytes) {
        Ok(()) => {}
        Err(FromHexError::OddLength) => return Err(ShowReason::Odd),
        Err(_) => return Err(ShowReason::Digit),
    }
    printed.clear();
    push_reading(bytes, printed);
    printed.push_byte(b'\n');
    Ok(())
}

// Shows one line.
pub(crate) fn show_line<K: Sink>(
    line: &[u8],
    printed: &mut Line,
    out: &mut K,
) -> Result<(), NotShown>
    ensures comes { ComesOfLine line.now (K.told out.old).written (K.told out.new).written result }
    ensures causes { (reads : ℕ) → HasCauses (reads, (K.told out.old).faults)
        (reads, (K.told out.new).faults) (failed_at_line result) }
    ensures appended { Grows (K.told out.old).written (K.told out.new).written }
{
    if let Err(reason) = make_line(line, printed) {
        return Err(NotShown::Refused(reason));
    }
    match out.write(printed.bytes()) {
        Ok(()) => Ok(()),
        Err(_) => Err(NotShown::WriteFailed),
    }
}
