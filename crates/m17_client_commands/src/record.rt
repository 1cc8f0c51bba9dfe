ghost use Rattle.std.specs.Prelude.{◌≡◌, ◌<◌, ◌≤◌, length, MatchResult};
ghost use Rattle.m17_client_commands.specs.Script.{script_moment, packet_of, record_size, RefusesNext, SpellsDue};

use crate::ScriptReason;
use m17_stream::StreamPacket;

/// How many bytes a record of a script has.
pub(crate) const RECORD_BYTES: usize = 62;

/// Where its packet begins, behind the moment.
const PACKET_AT: usize = 8;

/// The record that these bytes are, all that are left or as many as a record has, behind one of the moment `last`; else
/// at which of them and why they are none.
pub(crate) fn read_record(b: &[u8], last: u64) -> Result<(u64, StreamPacket), (usize, ScriptReason)>
    requires { (0 < length b.now) × (length b.now ≤ record_size) }
    ensures { MatchResult result (λ due. SpellsDue due b.now × (last ≤ due.0))
        (λ flaw. RefusesNext last b.now flaw.0 flaw.1) }
{
    if b.len() < PACKET_AT {
        return Err((b.len(), ScriptReason::Cut));
    }
    let moment = record_moment(b);
    if moment < last {
        return Err((0, ScriptReason::Field));
    }
    if b.len() < RECORD_BYTES {
        return Err((b.len(), ScriptReason::Cut));
    }
    match m17_stream::read(record_packet(b)) {
        Ok(packet) => Ok((moment, packet)),
        Err(_) => Err((PACKET_AT, ScriptReason::Field)),
    }
}

// The moment of a record.
#[inline]
fn record_moment(b: &[u8]) -> u64
    requires { 8 ≤ length b.now }
    ensures { result ≡ script_moment b.now }
{
    u64::from_be_bytes(*b[..PACKET_AT].as_array().unwrap())
}

// The bytes of its packet.
#[inline]
fn record_packet(b: &[u8]) -> &[u8]
    requires { length b.now ≡ record_size }
    ensures { result.now ≡ packet_of b.now }
{
    &b[PACKET_AT..]
}
