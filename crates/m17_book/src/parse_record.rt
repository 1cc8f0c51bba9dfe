ghost use Rattle.std.specs.Prelude.{◌≡◌, ◌<◌, ◌≤◌, length, MatchResult, IfSome};
ghost use Rattle.std.specs.Option.{IfNone};
ghost use Rattle.m17_book.specs.Limits.{IsKind};
ghost use Rattle.m17_book.specs.Records.{SpellsRecord, why_code};
ghost use Rattle.m17_book.specs.Flaws.{RecordFlaw, kind_of};
ghost use Rattle.m17_book.specs.Parsed.{BeginsWith, HasHead};

use crate::form::{HEAD_BYTES, JOIN, JOIN_BYTES, LEAVE, LEAVE_BYTES, LINKS, PACKET, PACKET_BYTES};
use crate::parse_verdict::{parse_place, parse_verdict};
use crate::version::Version;
use crate::{Flaw, Record};
use m17_callsign::from_bytes;
use m17_control::{Tag, Why};
use m17_fields::get_64;
use m17_values::Member;

/// Where the fields of a record begin.
const LINK_AT: usize = 1;

const INDEX_AT: usize = 2;

const MOMENT_AT: usize = 10;

const MEMBER_AT: usize = 18;

const LISTEN_AT: usize = HEAD_BYTES;

const CALLSIGN_AT: usize = 31;

const VALUE_AT: usize = 31;

const PACKET_AT: usize = 43;

/// The fields that all records have.
#[derive(Clone, Copy, Debug)]
pub(crate) struct Common {
    tag: Tag,
    moment: u64,
    member: Member,
}

/// The record of the version that the bytes begin with, and how many bytes it has; else what is wrong first.
pub(crate) fn parse_record(version: Version, b: &[u8]) -> Result<(Record, usize), Flaw>
    requires { 0 < length b.now }
    ensures { MatchResult result (λ found. BeginsWith (SpellsRecord version) b.now found.0 found.1)
        (RecordFlaw version b.now) }
{
    let kind = b[0];
    if kind < JOIN || kind > PACKET {
        return Err(Flaw::Kind(kind));
    }
    let head = parse_head(version, b)?;
    match kind {
        JOIN => parse_join(version, head, b),
        LEAVE => parse_leave(version, head, b),
        _ => parse_packet(version, head, b),
    }
}

/// The fields that all records have.
fn parse_head(version: Version, b: &[u8]) -> Result<Common, Flaw>
    requires some { 0 < length b.now }
    requires known { IsKind (kind_of b.now) }
    ensures { MatchResult result (HasHead b.now) (RecordFlaw version b.now) }
{
    if b.len() <= LINK_AT {
        return Err(Flaw::Cut);
    }
    let link = b[LINK_AT];
    if link >= LINKS {
        return Err(Flaw::Field(LINK_AT));
    }
    if b.len() < MEMBER_AT + 4 {
        return Err(Flaw::Cut);
    }
    let Some(member) = parse_place(b, MEMBER_AT) else {
        return Err(Flaw::Field(MEMBER_AT));
    };
    if b.len() < HEAD_BYTES {
        return Err(Flaw::Cut);
    }
    Ok(Common {
        tag: Tag {
            link,
            index: get_64(b, INDEX_AT),
        },
        moment: get_64(b, MOMENT_AT),
        member: Member {
            place: member,
            generation: get_64(b, MEMBER_AT + 4),
        },
    })
}

/// The rest of a Join.
fn parse_join(version: Version, head: Common, b: &[u8]) -> Result<(Record, usize), Flaw>
    requires head { HasHead b.now head }
    requires kind { kind_of b.now ≡ 1 }
    ensures { MatchResult result (λ found. BeginsWith (SpellsRecord version) b.now found.0 found.1)
        (RecordFlaw version b.now) }
{
    m17_fields::laws::fields_of_48_bits_are_exact();
    m17_callsign::laws::each_address_has_one_callsign();
    if b.len() <= LISTEN_AT {
        return Err(Flaw::Cut);
    }
    let listen = b[LISTEN_AT];
    if listen > 1 {
        return Err(Flaw::Field(LISTEN_AT));
    }
    if b.len() < JOIN_BYTES {
        return Err(Flaw::Cut);
    }
    let address = from_bytes(b[CALLSIGN_AT..JOIN_BYTES].as_array().unwrap());
    let Some(callsign) = version.joining(address) else {
        return Err(Flaw::Field(CALLSIGN_AT));
    };
    let Common {
        tag,
        moment,
        member,
    } = head;
    let listen = listen == 1;
    Ok((
        Record::Join {
            tag,
            moment,
            member,
            listen,
            callsign,
        },
        JOIN_BYTES,
    ))
}

/// The rest of a Leave.
fn parse_leave(version: Version, head: Common, b: &[u8]) -> Result<(Record, usize), Flaw>
    requires head { HasHead b.now head }
    requires kind { kind_of b.now ≡ 2 }
    ensures { MatchResult result (λ found. BeginsWith (SpellsRecord version) b.now found.0 found.1)
        (RecordFlaw version b.now) }
{
    if b.len() <= HEAD_BYTES {
        return Err(Flaw::Cut);
    }
    let Some(why) = why_of(b[HEAD_BYTES]) else {
        return Err(Flaw::Field(HEAD_BYTES));
    };
    let Common {
        tag,
        moment,
        member,
    } = head;
    Ok((
        Record::Leave {
            tag,
            moment,
            member,
            why,
        },
        LEAVE_BYTES,
    ))
}

/// Why a member left, by its byte.
fn why_of(code: u8) -> Option<Why>
    ensures some { IfSome result (λ why. why_code why ≡ code) }
    ensures none { IfNone result (1 ≤ code → code ≤ 5 → ⊥) }
{
    match code {
        1 => Some(Why::Asked),
        2 => Some(Why::Moved),
        3 => Some(Why::Silent),
        4 => Some(Why::Stopped),
        5 => Some(Why::Replaced),
        _ => None,
    }
}

/// The rest of a Packet.
fn parse_packet(version: Version, head: Common, b: &[u8]) -> Result<(Record, usize), Flaw>
    requires head { HasHead b.now head }
    requires kind { kind_of b.now ≡ 3 }
    ensures { MatchResult result (λ found. BeginsWith (SpellsRecord version) b.now found.0 found.1)
        (RecordFlaw version b.now) }
{
    if b.len() <= HEAD_BYTES {
        return Err(Flaw::Cut);
    }
    let code = b[HEAD_BYTES];
    if code < 1 || code > version.highest_verdict() {
        return Err(Flaw::Field(HEAD_BYTES));
    }
    if b.len() < PACKET_AT {
        return Err(Flaw::Cut);
    }
    let Some(verdict) = parse_verdict(code, &b[VALUE_AT..PACKET_AT]) else {
        return Err(Flaw::Field(VALUE_AT));
    };
    if b.len() < PACKET_BYTES {
        return Err(Flaw::Cut);
    }
    let Ok(packet) = m17_stream::read(&b[PACKET_AT..PACKET_BYTES]) else {
        return Err(Flaw::Field(PACKET_AT));
    };
    let Common {
        tag,
        moment,
        member,
    } = head;
    Ok((
        Record::Packet {
            tag,
            moment,
            member,
            verdict,
            packet,
        },
        PACKET_BYTES,
    ))
}
