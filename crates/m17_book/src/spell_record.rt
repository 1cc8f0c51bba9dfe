ghost use Rattle.std.specs.Prelude.{◌≡◌, ◌+◌, ◌<◌, ◌≤◌, ◌^◌, ◌∷◌, [], ◌++◌, length};
ghost use Rattle.arrayvec.specs.ArrayVec.{array_vec_len};
ghost use Rattle.m17_book.specs.Records.{IsWritable, IsLow, IsLowVerdict, FitsHead, FitsVerdict, SpellsRecord, head_bytes, why_code, verdict_code, value_bytes};
ghost use Rattle.m17_book.specs.declared.version.Version.TheVariants.{Two};

use crate::Record;
use crate::form::{JOIN, LEAVE, PACKET, PACKET_BYTES};
use arrayvec::ArrayVec;
use m17_callsign::to_bytes;
use m17_control::{Tag, Why};
use m17_fields::put;
use m17_floor::Verdict;
use m17_values::Member;

/// The bytes of a record: 37 of a Join, 31 of a Leave, 97 of a Packet. The record's link is below 4, its places, a
/// Busy's holder's among them, are below 256, and a Late's number is below 32,768.
pub fn write_record(r: &Record) -> ArrayVec<u8, 97>
    requires { IsWritable r.now }
    ensures { SpellsRecord Two r.now result.items }
{
    match *r {
        Record::Join {
            tag,
            moment,
            member,
            listen,
            callsign,
        } => {
            let mut bytes = head(JOIN, tag, moment, member);
            add(&mut bytes, &[u8::from(listen)]);
            add(&mut bytes, &to_bytes(callsign.address()));
            bytes
        }
        Record::Leave {
            tag,
            moment,
            member,
            why,
        } => {
            let mut bytes = head(LEAVE, tag, moment, member);
            add(&mut bytes, &[code_of_why(why)]);
            bytes
        }
        Record::Packet {
            tag,
            moment,
            member,
            verdict,
            packet,
        } => {
            let mut bytes = head(PACKET, tag, moment, member);
            add(&mut bytes, &[code_of_verdict(verdict)]);
            add(&mut bytes, &value_of(verdict));
            add(&mut bytes, &m17_stream::write(&packet));
            bytes
        }
    }
}

/// The fields that all records have.
fn head(kind: u8, tag: Tag, moment: u64, member: Member) -> ArrayVec<u8, PACKET_BYTES>
    requires { IsLow tag member }
    ensures items { result.items ≡ head_bytes kind tag moment member }
    ensures len { array_vec_len result ≡ 30 }
    ensures fits { FitsHead tag moment member }
{
    let mut bytes = ArrayVec::new();
    add(&mut bytes, &[kind, tag.link]);
    add(&mut bytes, &tag.index.to_be_bytes());
    add(&mut bytes, &moment.to_be_bytes());
    add(&mut bytes, &member.place.to_be_bytes());
    add(&mut bytes, &member.generation.to_be_bytes());
    bytes
}

/// Adds the bytes of a field at the end.
#[inline]
pub(crate) fn add<const N: usize>(bytes: &mut ArrayVec<u8, N>, field: &[u8])
    requires { array_vec_len bytes.old + length field.now ≤ N }
    ensures items { bytes.new.items ≡ bytes.old.items ++ field.now }
    ensures len { array_vec_len bytes.new ≡ array_vec_len bytes.old + length field.now }
{
    bytes.try_extend_from_slice(field).unwrap();
}

/// The byte for why a member left.
fn code_of_why(why: Why) -> u8
    ensures { result ≡ why_code why }
{
    match why {
        Why::Asked => 1,
        Why::Moved => 2,
        Why::Silent => 3,
        Why::Stopped => 4,
        Why::Replaced => 5,
    }
}

/// The byte of a verdict.
fn code_of_verdict(verdict: Verdict) -> u8
    ensures { result ≡ verdict_code verdict }
{
    match verdict {
        Verdict::Opened => 1,
        Verdict::Continued => 2,
        Verdict::Busy { .. } => 3,
        Verdict::Repeat => 4,
        Verdict::Late { .. } => 5,
        Verdict::AfterEnd => 6,
        Verdict::NotMember => 7,
        Verdict::ListenOnly => 8,
        Verdict::TimedOut => 9,
    }
}

/// The 12 bytes of a verdict's value.
fn value_of(verdict: Verdict) -> [u8; 12]
    requires { IsLowVerdict verdict }
    ensures bytes { result ≡ value_bytes verdict }
    ensures fits { FitsVerdict verdict }
{
    let mut bytes = [0; 12];
    match verdict {
        Verdict::Busy { holder } => {
            put(&mut bytes, 0, &holder.place.to_be_bytes());
            put(&mut bytes, 4, &holder.generation.to_be_bytes());
        }
        Verdict::Late { last } => put(&mut bytes, 10, &last.to_be_bytes()),
        _ => {}
    }
    bytes
}
