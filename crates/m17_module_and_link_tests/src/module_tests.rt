//! What no clause says: worked evenings of a module. Each is data, what happens and what is given for it; `plays` has a
//! module step through it.
ghost use Rattle.std.specs.Prelude.{◌<◌, ◌≤◌};

use crate::floor_list_tests::must;
use m17_callsign::{Address, CallAddress};
use m17_control::{Body, Event, Item, Said, Tag, Why};
use m17_floor::Verdict;
use m17_lsd::Lsd;
use m17_module::{Basket, Module};
use m17_samples::member;
use m17_stream::StreamPacket;
use m17_values::{Member, Peer};
use std::alloc::Global;
use std::process::Abort;

fn peer(k: Member) -> Peer {
    let mut ip = [0; 16];
    ip[0] = 192;
    ip[3] = (k.place & 0xff) as u8;
    Peer {
        six: false,
        ip,
        port: 17_000,
    }
}

fn link_of(k: Member) -> u8 {
    (k.place & 3) as u8
}

fn packet(sid: u16, number: u16, last: bool) -> StreamPacket {
    StreamPacket {
        sid,
        lsd: Lsd {
            dst: Address::broadcast(),
            src: Address::broadcast(),
            kind: 5,
            meta: [0; 14],
        },
        number: number & 0x7fff,
        last,
        payload: [0; 16],
    }
}

pub(crate) fn event(k: Member, at: u64, body: Body) -> Event {
    Event {
        tag: Tag {
            link: link_of(k),
            index: 0,
        },
        at,
        body,
    }
}

fn callsign(rt: &impl Abort) -> CallAddress {
    let address = Address::new(9).expect(rt, "an address");
    CallAddress::new(address).expect(rt, "a callsign")
}

pub(crate) fn join(rt: &impl Abort, k: Member, at: u64, listen: bool) -> Event {
    let body = Body::Join {
        member: k,
        peer: peer(k),
        callsign: callsign(rt),
        listen,
        after: k.generation & 0xff,
    };
    event(k, at, body)
}

pub(crate) fn leave(k: Member, at: u64, why: Why) -> Event {
    event(k, at, Body::Leave { member: k, why })
}

pub(crate) fn tick(at: u64) -> Event {
    event(member(0, 0), at, Body::Tick)
}

pub(crate) fn sends(k: Member, at: u64, sid: u16, number: u16, last: bool) -> Event {
    let packet = packet(sid, number, last);
    event(k, at, Body::Packet { member: k, packet })
}

/// What happens: a member comes to speak or to listen, leaves, or sends a packet with this stream id, number and end bit,
/// or the time goes by.
#[derive(Clone, Copy)]
enum Happens {
    Speaks(Member),
    Listens(Member),
    Leaves(Member, Why),
    Sends(Member, u16, u16, bool),
    Tick,
}

/// What is given to a member: a welcome, a farewell, a question whether it is there, or a packet of this position, stream
/// id, number and end bit, from another or as an echo.
#[derive(Clone, Copy)]
enum Gives {
    Hello(Member),
    Bye(Member, Why),
    Ping(Member),
    Frame(Member, u64, u16, u16, bool),
    Echo(Member, u64, u16, u16, bool),
}

/// When something happens, what, the answer, and what is given.
type Row = (u64, Happens, Option<Verdict>, &'static [Gives]);

fn event_of(rt: &impl Abort, at: u64, happens: Happens) -> Event {
    match happens {
        Happens::Speaks(k) => join(rt, k, at, false),
        Happens::Listens(k) => join(rt, k, at, true),
        Happens::Leaves(k, why) => leave(k, at, why),
        Happens::Sends(k, sid, number, last) => sends(k, at, sid, number, last),
        Happens::Tick => tick(at),
    }
}

/// The item that is given.
fn item_of(gives: Gives) -> Item {
    let (member, body) = match gives {
        Gives::Hello(k) => {
            let after = k.generation & 0xff;
            (k, Said::Hello { after })
        }
        Gives::Bye(k, why) => (k, Said::Bye { why }),
        Gives::Ping(k) => (k, Said::Ping),
        Gives::Frame(k, position, sid, number, last) => {
            let packet = packet(sid, number, last);
            (k, Said::Frame { position, packet })
        }
        Gives::Echo(k, position, sid, number, last) => {
            let packet = packet(sid, number, last);
            (k, Said::Echo { position, packet })
        }
    };
    Item {
        member,
        link: link_of(member),
        peer: peer(member),
        body,
    }
}

/// Whether the basket gives just this.
fn are_given(basket: &mut Basket, given: &[Gives]) -> bool {
    for gives in given {
        if basket.take() != Some(item_of(*gives)) {
            return false;
        }
    }
    basket.is_empty()
}

/// Steps by the rows, and compares each answer and what was given.
fn step_by(rt: &impl Abort, module: &mut Module, basket: &mut Basket, rows: &[Row]) {
    for (i, (at, happens, answer, given)) in rows.iter().enumerate() {
        assert!(rt; basket.is_empty());
        let answered = module.step(&event_of(rt, *at, *happens), basket);
        assert!(rt; answered == *answer && are_given(basket, given), "row {i}");
    }
}

/// A new module of so many places, with this limit on talking, and its basket.
pub(crate) fn made(
    rt: &impl Abort,
    alloc: Global,
    places: u32,
    parrot: bool,
    limit: u64,
) -> (Module, Basket)
    requires some { 0 < places }
    requires at_most { places ≤ 256 }
{
    let module = must(rt, Module::make(alloc, places, parrot, limit));
    (module, must(rt, Basket::make(alloc)))
}

/// Has a new module step by the rows: how many packets it admitted, and its moment.
fn plays(
    rt: &impl Abort,
    alloc: Global,
    places: u32,
    parrot: bool,
    limit: u64,
    rows: &[Row],
) -> (u64, u64)
    requires some { 0 < places }
    requires at_most { places ≤ 256 }
{
    let (mut module, mut basket) = made(rt, alloc, places, parrot, limit);
    step_by(rt, &mut module, &mut basket, rows);
    (module.admitted(), module.moment())
}

/// Members of the evenings: who comes first at places 0 to 3, and who comes next at place 2.
const AT_0: Member = Member {
    place: 0,
    generation: 0,
};

const AT_1: Member = Member {
    place: 1,
    generation: 0,
};

const AT_2: Member = Member {
    place: 2,
    generation: 0,
};

const NEXT_AT_2: Member = Member {
    place: 2,
    generation: 1,
};

const AT_3: Member = Member {
    place: 3,
    generation: 0,
};

const OPENED: Option<Verdict> = Some(Verdict::Opened);

const CONTINUED: Option<Verdict> = Some(Verdict::Continued);

const NOT_MEMBER: Option<Verdict> = Some(Verdict::NotMember);

#[test]
fn a_small_evening(rt: HostRuntime) {
    use Happens::{Leaves, Listens, Sends, Speaks, Tick};
    const HEARD: &[Gives] = &[Gives::Frame(AT_1, 2, 1234, 1, false)];
    const ROWS: [Row; 7] = [
        (0, Speaks(AT_0), None, &[Gives::Hello(AT_0)]),
        (50, Listens(AT_1), None, &[Gives::Hello(AT_1)]),
        (80, Sends(AT_0, 1234, 1, false), OPENED, HEARD),
        (
            130,
            Leaves(AT_1, Why::Asked),
            None,
            &[Gives::Bye(AT_1, Why::Asked)],
        ),
        (160, Sends(AT_0, 1234, 2, false), CONTINUED, &[]),
        (3_000, Tick, None, &[Gives::Ping(AT_0)]),
        (3_000, Sends(AT_1, 7, 1, false), NOT_MEMBER, &[]),
    ];
    assert!(rt; plays(&rt, rt.alloc(), 4, false, 0, &ROWS) == (2, 3_000));
}

#[test]
fn a_place_is_taken_over(rt: HostRuntime) {
    use Happens::{Leaves, Sends, Speaks};
    const PAST: Member = Member {
        place: 4,
        generation: 0,
    };
    const BUSY: Option<Verdict> = Some(Verdict::Busy { holder: AT_2 });
    const HEARD: &[Gives] = &[Gives::Frame(AT_3, 2, 5, 1, false)];
    const TAKEN: &[Gives] = &[Gives::Bye(AT_2, Why::Replaced), Gives::Hello(NEXT_AT_2)];
    const THEN_HEARD: &[Gives] = &[Gives::Frame(NEXT_AT_2, 7, 6, 1, false)];
    const ROWS: [Row; 10] = [
        (0, Speaks(AT_3), None, &[Gives::Hello(AT_3)]),
        (0, Speaks(AT_2), None, &[Gives::Hello(AT_2)]),
        (10, Sends(AT_2, 5, 1, false), OPENED, HEARD),
        (20, Sends(AT_3, 6, 1, false), BUSY, &[]),
        (30, Speaks(NEXT_AT_2), None, TAKEN),
        (40, Leaves(AT_2, Why::Asked), None, &[]),
        (40, Sends(AT_2, 5, 2, false), NOT_MEMBER, &[]),
        (50, Sends(AT_3, 6, 1, false), OPENED, THEN_HEARD),
        (60, Speaks(PAST), None, &[]),
        (60, Sends(PAST, 1, 1, false), NOT_MEMBER, &[]),
    ];
    let _end = plays(&rt, rt.alloc(), 4, false, 0, &ROWS);
}

#[test]
fn a_talker_leaves_with_the_floor_and_joins_again(rt: HostRuntime) {
    use Happens::{Leaves, Sends, Speaks};
    const ROWS: [Row; 6] = [
        (0, Speaks(AT_0), None, &[Gives::Hello(AT_0)]),
        (0, Speaks(AT_1), None, &[Gives::Hello(AT_1)]),
        (
            10,
            Sends(AT_0, 5, 9, false),
            OPENED,
            &[Gives::Frame(AT_1, 2, 5, 9, false)],
        ),
        (
            20,
            Leaves(AT_0, Why::Silent),
            None,
            &[Gives::Bye(AT_0, Why::Silent)],
        ),
        (30, Speaks(AT_0), None, &[Gives::Hello(AT_0)]),
        (
            40,
            Sends(AT_0, 5, 9, false),
            OPENED,
            &[Gives::Frame(AT_1, 5, 5, 9, false)],
        ),
    ];
    let _end = plays(&rt, rt.alloc(), 2, false, 0, &ROWS);
}

#[test]
fn a_stuck_key_times_out_and_another_takes_the_floor(rt: HostRuntime) {
    use Happens::{Sends, Speaks};
    const TIMED_OUT: Option<Verdict> = Some(Verdict::TimedOut);
    const BUSY: Option<Verdict> = Some(Verdict::Busy { holder: AT_1 });
    const FIRST: &[Gives] = &[Gives::Frame(AT_1, 2, 5, 1, false)];
    const SECOND: &[Gives] = &[Gives::Frame(AT_1, 3, 5, 2, false)];
    const THIRD: &[Gives] = &[Gives::Frame(AT_1, 4, 5, 3, false)];
    const THEN_HEARD: &[Gives] = &[Gives::Frame(AT_0, 6, 6, 1, false)];
    const ROWS: [Row; 8] = [
        (0, Speaks(AT_0), None, &[Gives::Hello(AT_0)]),
        (0, Speaks(AT_1), None, &[Gives::Hello(AT_1)]),
        (10, Sends(AT_0, 5, 1, false), OPENED, FIRST),
        (1_500, Sends(AT_0, 5, 2, false), CONTINUED, SECOND),
        (2_009, Sends(AT_0, 5, 3, false), CONTINUED, THIRD),
        (2_010, Sends(AT_0, 5, 4, false), TIMED_OUT, &[]),
        (2_010, Sends(AT_1, 6, 1, false), OPENED, THEN_HEARD),
        (2_020, Sends(AT_0, 5, 5, false), BUSY, &[]),
    ];
    assert!(rt; plays(&rt, rt.alloc(), 2, false, 2_000, &ROWS) == (4, 2_020));
}

#[test]
fn pings_come_at_multiples_of_three_seconds(rt: HostRuntime) {
    use Happens::{Leaves, Speaks, Tick};
    const LEFT: &[Gives] = &[Gives::Ping(AT_1), Gives::Bye(AT_1, Why::Silent)];
    const ROWS: [Row; 9] = [
        (0, Speaks(AT_1), None, &[Gives::Hello(AT_1)]),
        (2_999, Tick, None, &[]),
        (3_000, Tick, None, &[Gives::Ping(AT_1)]),
        (2_000, Tick, None, &[]),
        (3_000, Tick, None, &[]),
        (6_001, Tick, None, &[Gives::Ping(AT_1)]),
        (60_000, Tick, None, &[Gives::Ping(AT_1)]),
        (63_000, Leaves(AT_1, Why::Silent), None, LEFT),
        (66_000, Tick, None, &[]),
    ];
    let _end = plays(&rt, rt.alloc(), 2, false, 0, &ROWS);
}

// What a parrot gives back: the frame that is due comes first, and then the packet, which forgets what was left of the
// recording; and a recording of its own comes back from 1,000 ms after its end on.
#[test]
fn another_talker_during_the_echo_ends_it(rt: HostRuntime) {
    use Happens::{Sends, Speaks, Tick};
    const DUE_FIRST: &[Gives] = &[
        Gives::Echo(AT_0, 6, 0xfff6, 1, false),
        Gives::Frame(AT_0, 6, 8, 0, true),
    ];
    const FIRST: &[Gives] = &[Gives::Frame(AT_3, 2, 9, 0, false)];
    const SECOND: &[Gives] = &[Gives::Frame(AT_3, 3, 9, 1, false)];
    const THIRD: &[Gives] = &[Gives::Frame(AT_3, 4, 9, 2, true)];
    const ROWS: [Row; 10] = [
        (0, Speaks(AT_0), None, &[Gives::Hello(AT_0)]),
        (0, Speaks(AT_3), None, &[Gives::Hello(AT_3)]),
        (0, Sends(AT_0, 9, 0, false), OPENED, FIRST),
        (40, Sends(AT_0, 9, 1, false), CONTINUED, SECOND),
        (80, Sends(AT_0, 9, 2, true), CONTINUED, THIRD),
        (1_080, Tick, None, &[Gives::Echo(AT_0, 5, 0xfff6, 0, false)]),
        (1_120, Sends(AT_3, 8, 0, true), OPENED, DUE_FIRST),
        (1_200, Tick, None, &[]),
        (2_120, Tick, None, &[Gives::Echo(AT_3, 8, 0xfff7, 0, true)]),
        (2_900, Tick, None, &[]),
    ];
    let _end = plays(&rt, rt.alloc(), 4, true, 0, &ROWS);
}

// All 256 places are taken, in an order of places that is not theirs.
fn fill(rt: &impl Abort, module: &mut Module, basket: &mut Basket) {
    for place in 0..256u32 {
        let k = member((place * 77) % 256, 0);
        assert!(rt; basket.is_empty());
        let answer = module.step(&join(rt, k, 0, false), basket);
        assert!(rt; answer.is_none() && are_given(basket, &[Gives::Hello(k)]));
    }
}

// Each is asked whether it is there, and then told what the member at place 9 said.
fn are_all_told(basket: &mut Basket) -> bool {
    let mut told = true;
    for place in 0..256u32 {
        told = told && basket.take() == Some(item_of(Gives::Ping(member(place, 0))));
    }
    for place in 0..256u32 {
        if place != 9 {
            let frame = Gives::Frame(member(place, 0), 256, 5, 1, false);
            told = told && basket.take() == Some(item_of(frame));
        }
    }
    told && basket.is_empty()
}

#[test]
fn a_full_module_is_told_in_order_of_place(rt: HostRuntime) {
    let (mut module, mut basket) = made(&rt, rt.alloc(), 256, false, 0);
    fill(&rt, &mut module, &mut basket);
    assert!(rt; basket.is_empty());
    let answer = module.step(&sends(member(9, 0), 3_000, 5, 1, false), &mut basket);
    assert!(rt; answer == OPENED && are_all_told(&mut basket));
}
