//! The records of small books, judged by hand. What is said of the bytes of books is in `conformance/`.
use m17_book::{Breach, Checker, Record, Report, Rule, check};
use m17_callsign::CallAddress;
use m17_control::{Tag, Why};
use m17_floor::Verdict;
use m17_lsd::Lsd;
use m17_stream::StreamPacket;
use m17_values::{Address, Member};
use std::alloc::Global;
use std::process::Abort;

/// What a record of a small book says: of the member with this place and generation.
#[derive(Clone, Copy)]
enum What {
    /// It joins to speak, or to listen only.
    Joins,
    Listens,
    /// It leaves.
    Leaves,
    /// It sends a frame of this stream, with this number and end bit, and this verdict was kept.
    Sends(u16, u16, bool, Verdict),
}

use What::{Joins, Leaves, Listens, Sends};

/// A record: its moment, the member's place and generation, and what it says.
type Step = (u64, u32, u64, What);

fn packet(sid: u16, number: u16, last: bool) -> StreamPacket {
    StreamPacket {
        sid,
        lsd: Lsd {
            dst: Address::broadcast(),
            src: Address::broadcast(),
            kind: 5,
            meta: [0; 14],
        },
        number: number % 32_768,
        last,
        payload: [0; 16],
    }
}

fn made(callsign: CallAddress, step: &Step) -> Record {
    let (moment, place, generation, what) = *step;
    let tag = Tag { link: 0, index: 0 };
    let member = Member { place, generation };
    match what {
        Joins | Listens => Record::Join {
            tag,
            moment,
            member,
            listen: matches!(what, Listens),
            callsign,
        },
        Leaves => Record::Leave {
            tag,
            moment,
            member,
            why: Why::Asked,
        },
        Sends(sid, number, last, verdict) => Record::Packet {
            tag,
            moment,
            member,
            verdict,
            packet: packet(sid, number, last),
        },
    }
}

/// What `check` says of a book with these records, under no limit.
fn checked<R: Abort>(rt: &R, alloc: Global, steps: &[Step]) -> Result<Report, Breach> {
    let callsign = callsign(rt);
    let mut records = Vec::new(alloc);
    for step in steps {
        records.push(made(callsign, step)).ok().expect(rt, "pushed");
    }
    check(0, records.as_slice())
}

fn callsign<R: Abort>(rt: &R) -> CallAddress {
    let address = Address::new(1).expect(rt, "an address");
    CallAddress::new(address).expect(rt, "a callsign")
}

const OPENED: Verdict = Verdict::Opened;

/// Busy with the first member that was at place 0.
const BUSY_0: Verdict = Verdict::Busy {
    holder: Member {
        place: 0,
        generation: 0,
    },
};

/// Two join and speak in turn, one of them leaves and another comes to its place, and one only listens.
const EVENING: [Step; 12] = [
    (0, 0, 0, Joins),
    (10, 1, 0, Joins),
    (20, 0, 0, Sends(1, 0, false, OPENED)),
    (60, 1, 0, Sends(2, 0, false, BUSY_0)),
    (100, 0, 0, Sends(1, 2, true, Verdict::Continued)),
    (140, 0, 0, Sends(1, 1, false, Verdict::AfterEnd)),
    (180, 1, 0, Sends(2, 1, false, OPENED)),
    (220, 1, 0, Leaves),
    (220, 1, 1, Listens),
    (260, 1, 0, Sends(2, 2, false, Verdict::NotMember)),
    (300, 1, 1, Sends(3, 0, false, Verdict::ListenOnly)),
    (340, 0, 0, Sends(4, 7, false, OPENED)),
];

#[test]
fn records_are_legal_or_the_first_that_is_not_is_told(rt: HostRuntime) {
    let mut overlap = EVENING;
    overlap[3] = (60, 1, 0, Sends(2, 0, false, OPENED));
    let breach = Breach {
        position: 3,
        rule: Rule::Verdict,
    };
    let legal = Report {
        records: 12,
        streams: 3,
        admitted: 4,
    };
    assert!(rt; checked(&rt, rt.alloc(), EVENING.as_slice()) == Ok(legal));
    assert!(rt; checked(&rt, rt.alloc(), overlap.as_slice()) == Err(breach));
}

#[test]
fn a_checker_answers_its_breach_again(rt: HostRuntime) {
    let callsign = callsign(&rt);
    let mut checker = Checker::new(0);
    let breach = Breach {
        position: 1,
        rule: Rule::Moment,
    };
    assert!(rt; checker.next(&made(callsign, &(10, 0, 0, Joins))) == Ok(()));
    assert!(rt; checker.next(&made(callsign, &(9, 1, 0, Joins))) == Err(breach));
    assert!(rt; checker.next(&made(callsign, &(10, 1, 0, Joins))) == Err(breach));
}
