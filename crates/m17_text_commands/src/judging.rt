ghost use Rattle.std.specs.Prelude.{◌≡◌, ◌++◌, codes, decimal};
ghost use Rattle.m17_print.specs.Line.{IsBegun};
ghost use Rattle.m17_text_commands.specs.Records.{moment_of_record, talker_of, packet_of};
ghost use Rattle.m17_text_commands.specs.Table.{JudgesRecord};

use crate::table::Table;
use m17_print::Line;

/// How many bytes a record of `judge` has: its moment in 8, its talker in 2, and its packet in 54.
pub const RECORD_BYTES: usize = 64;

const TALKER_AT: usize = 8;

const PACKET_AT: usize = 10;

// The moment of a record, in milliseconds.
#[inline]
fn record_moment(bytes: &[u8; RECORD_BYTES]) -> u64
    ensures { result ≡ moment_of_record bytes.now }
{
    u64::from_be_bytes(*bytes[..TALKER_AT].as_array().unwrap())
}

// The talker of a record.
#[inline]
fn record_talker(bytes: &[u8; RECORD_BYTES]) -> u16
    ensures { result ≡ talker_of bytes.now }
{
    u16::from_be_bytes(*bytes[TALKER_AT..PACKET_AT].as_array().unwrap())
}

// The bytes of a record's packet.
#[inline]
fn record_packet(bytes: &[u8; RECORD_BYTES]) -> &[u8]
    ensures { result.now ≡ packet_of bytes.now }
{
    &bytes[PACKET_AT..]
}

// Begins the line of a record with its number.
#[inline]
fn begin(line: &mut Line, index: u64)
    ensures begun { line.new ≡ decimal index ++ codes " " }
    ensures short { IsBegun line.new }
{
    line.clear();
    line.push_number(index);
    line.push_text(" ");
}

// Judges record `index`, and makes its line.
pub(crate) fn judge_record(
    table: &mut Table,
    index: u64,
    bytes: &[u8; RECORD_BYTES],
    line: &mut Line,
)
    ensures { JudgesRecord index bytes.now table.old table.new line.new }
{
    let at = record_moment(bytes);
    begin(line, index);
    match m17_stream::read(record_packet(bytes)) {
        Ok(packet) => {
            let verdict = table.judge(at, record_talker(bytes), &packet);
            line.push_verdict(verdict);
            line.push_byte(b'\n');
        }
        Err(refusal) => {
            table.pass(at);
            line.push_stream_refusal(&refusal);
            line.push_byte(b'\n');
        }
    }
}
