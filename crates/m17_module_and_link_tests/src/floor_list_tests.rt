//! The fast way beside the plain one, over lists in which members join, leave and come again.
ghost use Rattle.std.specs.Prelude.{◌<◌};

use m17_callsign::Address;
use m17_floor::Verdict::{
    AfterEnd, Busy, Continued, Late, ListenOnly, NotMember, Opened, Repeat, TimedOut,
};
use m17_floor::{Act, ActKind, Floor, Last, Verdict, plain};
use m17_lsd::Lsd;
use m17_samples::member;
use m17_stream::{FRAME_NUMBERS, StreamPacket};
use m17_values::Member;
use std::alloc::Global;
use std::process::Abort;

const PLACES: u32 = 2;

/// What was made; the test ends where it was not.
pub(crate) fn must<T, E: Drop>(rt: &impl Abort, made: Result<T, E>) -> T {
    made.ok().expect(rt, "made")
}

fn packet(sid: u16, number: u16, last: bool) -> StreamPacket {
    StreamPacket {
        sid,
        lsd: Lsd {
            dst: Address::broadcast(),
            src: Address::broadcast(),
            kind: 5,
            meta: [0; 14],
        },
        number: number % FRAME_NUMBERS,
        last,
        payload: [0; 16],
    }
}

fn join(at: u64, member: Member, listens: bool) -> Act {
    Act {
        at,
        kind: ActKind::Join { member, listens },
    }
}

fn leave(at: u64, member: Member) -> Act {
    Act {
        at,
        kind: ActKind::Leave { member },
    }
}

/// A member sends a packet with this stream id, number and end bit.
fn sent(at: u64, member: Member, sid: u16, number: u16, last: bool) -> Act {
    let packet = packet(sid, number, last);
    Act {
        at,
        kind: ActKind::Packet { member, packet },
    }
}

// Who is in at a place, and what is kept of it.
#[derive(Debug, Drop)]
struct Seat {
    member: Member,
    listens: bool,
    own: Last,
}

// A module of two places, as the crate above keeps it.
#[derive(Debug, Drop)]
struct Room {
    floor: Floor,
    first: Option<Seat>,
    second: Option<Seat>,
    moment: u64,
}

impl Room {
    fn new(limit: u64) -> Room {
        Room {
            floor: Floor::new(limit),
            first: None,
            second: None,
            moment: 0,
        }
    }

    fn sits(seat: &Option<Seat>, m: Member) -> bool {
        match seat {
            Some(seat) => seat.member == m,
            None => false,
        }
    }

    fn join(&mut self, m: Member, listens: bool) {
        let taken = if m.place == 0 {
            self.first.take()
        } else {
            self.second.take()
        };
        if let Some(seat) = taken {
            self.floor.left(seat.member);
        }
        let seat = Some(Seat {
            member: m,
            listens,
            own: Last::new(),
        });
        if m.place == 0 {
            self.first = seat;
        } else {
            self.second = seat;
        }
    }

    fn leave(&mut self, m: Member) {
        if Room::sits(&self.first, m) {
            self.first = None;
            self.floor.left(m);
        }
        if Room::sits(&self.second, m) {
            self.second = None;
            self.floor.left(m);
        }
    }

    fn packet(&mut self, m: Member, p: &StreamPacket) -> Verdict {
        if m.place == 0 {
            heard(&mut self.floor, &mut self.first, self.moment, m, p)
        } else {
            heard(&mut self.floor, &mut self.second, self.moment, m, p)
        }
    }

    fn step(&mut self, act: &Act) -> Option<Verdict> {
        self.moment = self.moment.max(act.at);
        match &act.kind {
            ActKind::Join { member, listens } if member.place < PLACES => {
                self.join(*member, *listens);
                None
            }
            ActKind::Leave { member } => {
                self.leave(*member);
                None
            }
            ActKind::Packet { member, packet } => Some(self.packet(*member, packet)),
            _ => None,
        }
    }
}

// The verdict on a packet that comes for this seat.
fn heard(
    floor: &mut Floor,
    seat: &mut Option<Seat>,
    moment: u64,
    m: Member,
    p: &StreamPacket,
) -> Verdict {
    match seat {
        Some(seat) => {
            if seat.member != m {
                NotMember
            } else if seat.listens {
                ListenOnly
            } else {
                floor.judge(m, moment, p, &mut seat.own)
            }
        }
        None => NotMember,
    }
}

// Whether the fast way gives these verdicts.
fn fast_gives(limit: u64, acts: &[Act], wanted: &[Option<Verdict>]) -> bool {
    let mut room = Room::new(limit);
    for (act, verdict) in acts.iter().zip(wanted) {
        if room.step(act) != *verdict {
            return false;
        }
    }
    acts.len() == wanted.len()
}

// A number below `below`, which is not 0, from the upper bits of a state that goes round.
fn drawn(state: &mut u64, below: u64) -> u64
    requires { 0 < below }
    ensures { result < below }
{
    *state = state
        .wrapping_mul(6_364_136_223_846_793_005)
        .wrapping_add(1_442_695_040_888_963_407);
    (*state >> 33) % below
}

// One of a few acts: four members at two places, and two past them; two streams; numbers that repeat, go round and
// stand half way round.
fn some_act(state: &mut u64, at: u64) -> Act {
    let who = member(drawn(state, 5) as u32 / 2, drawn(state, 2));
    let numbers = [0, 1, 2, 16_383, 16_384, 32_767];
    let number = numbers.get(drawn(state, 6) as usize).copied().unwrap_or(0);
    let sid = drawn(state, 2) as u16;
    match drawn(state, 10) {
        0 => join(at, who, false),
        1 => join(at, who, true),
        2 => leave(at, who),
        3 => Act {
            at,
            kind: ActKind::Other,
        },
        4 => sent(at, who, sid, number, true),
        _ => sent(at, who, sid, number, false),
    }
}

// Which verdict it is, by its line in the table.
fn line_of(verdict: Option<Verdict>) -> usize
    ensures { result < 10 }
{
    match verdict {
        Some(NotMember) => 0,
        Some(ListenOnly) => 1,
        Some(Busy { .. }) => 2,
        Some(AfterEnd) => 3,
        Some(Repeat) => 4,
        Some(Late { .. }) => 5,
        Some(TimedOut) => 6,
        Some(Continued) => 7,
        Some(Opened) => 8,
        None => 9,
    }
}

// Two members join, and 24 acts follow, whose moments rise on the whole.
fn some_list(rt: &impl Abort, alloc: Global, state: &mut u64) -> Vec<Act> {
    const STEPS: [u64; 8] = [0, 0, 40, 1_599, 1_600, 8_400, 9_999, 10_000];
    let joins = [join(0, member(0, 0), false), join(0, member(1, 0), false)];
    let mut acts = must(rt, Vec::from_array(alloc, joins));
    let mut moment: u64 = 20_000;
    for _ in 0..24 {
        let step = STEPS.get(drawn(state, 8) as usize).copied().unwrap_or(0);
        moment = moment.wrapping_add(step);
        let back = if drawn(state, 8) == 0 { 5_000 } else { 0 };
        must(rt, acts.push(some_act(state, moment.saturating_sub(back))));
    }
    acts
}

// Judges such a list both ways, under one of a few limits, and notes which verdicts came.
fn judge_some(rt: &impl Abort, alloc: Global, state: &mut u64, seen: &mut [bool; 10]) {
    let limits = [0, 40, 2_000, 9_999];
    let limit = limits.get(drawn(state, 4) as usize).copied().unwrap_or(0);
    let acts = some_list(rt, alloc, state);
    let wanted = must(rt, plain::verdicts(alloc, PLACES, limit, &acts));
    assert!(rt; fast_gives(limit, &acts, &wanted));
    for verdict in wanted.iter() {
        seen[line_of(*verdict)] = true;
    }
}

#[test]
fn small_lists_are_judged_as_by_the_rule(rt: HostRuntime) {
    let mut state = 1;
    let mut seen = [false; 10];
    for _ in 0..400 {
        judge_some(&rt, rt.alloc(), &mut state, &mut seen);
    }
    assert!(rt; seen == [true; 10]);
}

#[test]
fn values_that_differ_in_one_field_are_unequal(rt: HostRuntime) {
    let m = member(0, 0);
    let acts = [
        sent(5, m, 1, 2, false),
        sent(6, m, 1, 2, false),
        sent(5, member(1, 0), 1, 2, false),
        sent(5, member(0, 1), 1, 2, false),
        sent(5, m, 2, 2, false),
        sent(5, m, 1, 3, false),
        sent(5, m, 1, 2, true),
        join(5, m, false),
        join(5, m, true),
        join(5, member(1, 0), false),
        leave(5, m),
        leave(5, member(0, 1)),
    ];
    for (i, one) in acts.iter().enumerate() {
        for (j, other) in acts.iter().enumerate() {
            assert!(rt; (one == other) == (i == j), "{i} {j}");
        }
    }
    let other = member(1, 0);
    assert!(rt;
        Busy { holder: m } != Busy { holder: other } && Late { last: 1 } != Late { last: 2 }
    );
    assert!(rt; Opened != Continued);
}
