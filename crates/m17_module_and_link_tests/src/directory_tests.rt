ghost use Rattle.std.specs.Prelude.{◌≡◌, ◌<◌, ◌≤◌, [], None, IsSome};

use crate::seen::{QUIET, Seen, both, drain};
use m17_callsign::{CallAddress, encode};
use m17_control::{Body, Control, Event, ModuleLetter, Modules, Why, write};
use m17_directory::*;
use m17_samples::{frame, member, peer};
use m17_stream::StreamPacket;
use m17_values::{Gram, Heard, Member, Peer};
use std::alloc::Global;
use std::process::Abort;

pub(crate) fn letter(rt: &impl Abort, byte: u8) -> ModuleLetter {
    ModuleLetter::new(byte).expect(rt, "a module")
}

pub(crate) fn call(rt: &impl Abort, text: &str) -> CallAddress {
    let address = encode(text).ok().expect(rt, "an address");
    CallAddress::new(address).expect(rt, "a callsign")
}

fn said(from: &Peer, at: u64, control: &Control) -> Heard {
    Heard::Datagram {
        from: *from,
        at,
        bytes: Gram::of(write(control).as_slice()),
    }
}

pub(crate) fn conn(rt: &impl Abort, from: &Peer, at: u64, module: u8) -> Heard {
    let control = Control::Conn {
        from: call(rt, "AB1CD"),
        module: letter(rt, module),
    };
    said(from, at, &control)
}

fn lstn(rt: &impl Abort, from: &Peer, at: u64, module: u8) -> Heard {
    let control = Control::Lstn {
        from: call(rt, "N0CALL"),
        module: letter(rt, module),
    };
    said(from, at, &control)
}

fn sent(from: &Peer, at: u64, packet: &StreamPacket) -> Heard {
    Heard::Datagram {
        from: *from,
        at,
        bytes: Gram::of(&m17_stream::write(packet)),
    }
}

// The leaving of the members that the tests use was reported.
fn for_good(d: &mut Directory)
    ensures asked { d.new.asked ≡ d.old.asked }
    ensures setup { d.new.setup ≡ d.old.setup }
{
    for (place, generation) in [(0, 0), (0, 1), (1, 0)] {
        d.noted(member(place, generation));
    }
}

// Settles what is asked with this member, and takes out what that posts.
fn settles(
    rt: &impl Abort,
    places: u32,
    d: &mut Directory,
    post: &mut Post,
    claimed: Option<Member>,
) -> (LinkVerdict, Seen)
    requires nothing_posted { post.old ≡ [] }
    requires asked { IsSome d.old.asked }
    requires places { d.old.setup.places ≡ places }
    ensures nothing_posted { post.new ≡ [] }
    ensures nothing_asked { d.new.asked ≡ None }
    ensures places { d.new.setup.places ≡ places }
{
    for_good(d);
    assert!(rt; !d.waits());
    if let Some(member) = claimed {
        assert!(rt; member.place < places);
    }
    let verdict = d.settle(claimed, 0, post);
    (verdict, drain(post))
}

// Hears an entry, and settles what it asks with this member.
fn hears(
    rt: &impl Abort,
    places: u32,
    d: &mut Directory,
    post: &mut Post,
    index: u64,
    h: &Heard,
    claimed: Option<Member>,
) -> (LinkVerdict, Seen)
    requires nothing_posted { post.old ≡ [] }
    requires nothing_asked { d.old.asked ≡ None }
    requires places { d.old.setup.places ≡ places }
    ensures nothing_posted { post.new ≡ [] }
    ensures nothing_asked { d.new.asked ≡ None }
    ensures places { d.new.setup.places ≡ places }
{
    assert!(rt; !d.has_ended());
    let verdict = d.hear(index, h, post);
    let seen = drain(post);
    if !matches!(verdict, LinkVerdict::Asks) {
        return (verdict, seen);
    }
    let (verdict, more) = settles(rt, places, d, post, claimed);
    (verdict, both(&seen, &more))
}

fn start(rt: &impl Abort, alloc: Global, places: u32) -> (Directory, Post)
    requires some { (0 < places) × (places ≤ 256) }
    ensures asked { result.0.asked ≡ None }
    ensures places { result.0.setup.places ≡ places }
    ensures posted { result.1 ≡ [] }
{
    let modules = Modules::read("ABC").ok().expect(rt, "modules");
    let d = Directory::make(alloc, 0, call(rt, "M17-TST"), places, modules);
    let d = d.ok().expect(rt, "memory");
    let post = Post::make(alloc).ok().expect(rt, "memory");
    (d, post)
}

// What the peer of an entry sends, or what else is heard.
#[derive(Clone, Copy)]
enum Turn {
    Conn(u8),
    Lstn(u8),
    Voice(u16, u16),
    LastVoice(u16, u16),
    Disc(&'static str),
    Quiet,
    Fault,
    End,
}

// What it becomes.
#[derive(Clone, Copy)]
enum Want {
    Routed(u8, Act),
    Timed,
    Faulted,
    Ended,
}

// The peer's number, the moment, what is heard, the place and generation that the reflector gives where it asks, what
// the entry becomes, and what it posts.
type Row = (u8, u64, Turn, Option<(u32, u64)>, Want, Seen);

// What is heard from this peer: one from 128 on is the one of a number lower by 128, in the other family.
fn heard(rt: &impl Abort, host: u8, at: u64, turn: Turn) -> Heard {
    let mut from = peer(host & 0x7f);
    from.six = host >= 128;
    match turn {
        Turn::Conn(module) => conn(rt, &from, at, module),
        Turn::Lstn(module) => lstn(rt, &from, at, module),
        Turn::Voice(sid, number) => sent(&from, at, &frame(sid, number & 0x7fff, false)),
        Turn::LastVoice(sid, number) => sent(&from, at, &frame(sid, number & 0x7fff, true)),
        Turn::Disc(name) => {
            let callsign = Some(call(rt, name));
            said(&from, at, &Control::Disc { from: callsign })
        }
        Turn::Quiet => Heard::Quiet { at },
        Turn::Fault => Heard::Fault,
        Turn::End => Heard::End,
    }
}

fn wanted(rt: &impl Abort, want: Want) -> LinkVerdict {
    match want {
        Want::Routed(module, act) => LinkVerdict::Routed {
            module: letter(rt, module),
            act,
        },
        Want::Timed => LinkVerdict::Timed,
        Want::Faulted => LinkVerdict::Faulted,
        Want::Ended => LinkVerdict::Ended,
    }
}

// Hears the rows, from this index on.
fn hear_rows(
    rt: &impl Abort,
    places: u32,
    d: &mut Directory,
    post: &mut Post,
    from: u64,
    rows: &[Row],
)
    requires nothing_posted { post.old ≡ [] }
    requires nothing_asked { d.old.asked ≡ None }
    requires places { d.old.setup.places ≡ places }
    ensures nothing_posted { post.new ≡ [] }
    ensures nothing_asked { d.new.asked ≡ None }
    ensures places { d.new.setup.places ≡ places }
{
    for (index, &(host, at, turn, place, want, told)) in rows.iter().enumerate() {
        let claimed = place.map(|(place, generation)| member(place, generation));
        let h = heard(rt, host, at, turn);
        let index = from.saturating_add(index as u64);
        let (verdict, seen) = hears(rt, places, d, post, index, &h, claimed);
        assert!(rt;
            verdict == wanted(rt, want) && seen == told,
            "entry {index}"
        );
    }
}

// What is left of a link: how many are known, whether it has ended, and whether places 0, 1 and 2 are held.
#[derive(Clone, Copy, PartialEq, Eq)]
struct Left {
    known: u32,
    ended: bool,
    held: [bool; 3],
}

// An evening: the places, the rows, and what is left.
type Evening = (u32, &'static [Row], Left);

// What is left when a new directory of so many places has heard the rows.
fn left_by(rt: &impl Abort, alloc: Global, places: u32, rows: &[Row]) -> Left
    requires some { (0 < places) × (places ≤ 256) }
{
    let (mut d, mut post) = start(rt, alloc, places);
    hear_rows(rt, places, &mut d, &mut post, 0, rows);
    Left {
        known: d.known(),
        ended: d.has_ended(),
        held: [d.has_place(0), d.has_place(1), d.has_place(2)],
    }
}

const TICKS: Seen = Seen { ticks: 3, ..QUIET };

const JOIN: Seen = Seen { joins: 1, ..QUIET };

const FRAME_AND_TICKS: Seen = Seen {
    packets: 1,
    ..TICKS
};

const LEAVE: Seen = Seen { leaves: 1, ..QUIET };

const LEAVE_AND_JOIN: Seen = Seen { leaves: 1, ..JOIN };

const STOPS: Seen = Seen { stops: 3, ..QUIET };

const STOPS_AND_LEAVE: Seen = Seen { stops: 3, ..LEAVE };

const JOINS: Want = Want::Routed(b'A', Act::Join);

const PASSES: Want = Want::Routed(b'A', Act::Packet);

const LEAVES: Want = Want::Routed(b'A', Act::Leave);

const TWO_PEERS: &[Row] = &[
    (1, 0, Turn::Conn(b'A'), Some((0, 0)), JOINS, JOIN),
    (1, 40, Turn::Voice(0x1234, 0), None, PASSES, FRAME_AND_TICKS),
    (2, 50, Turn::Lstn(b'A'), Some((1, 0)), JOINS, JOIN),
    (1, 80, Turn::Voice(0x1234, 1), None, PASSES, FRAME_AND_TICKS),
    (
        1,
        120,
        Turn::Voice(0x1234, 2),
        None,
        PASSES,
        FRAME_AND_TICKS,
    ),
    (2, 130, Turn::Disc("N0CALL"), None, LEAVES, LEAVE),
    (
        1,
        160,
        Turn::LastVoice(0x1234, 3),
        None,
        PASSES,
        FRAME_AND_TICKS,
    ),
    (0, 0, Turn::End, None, Want::Ended, STOPS_AND_LEAVE),
];

const A_CLAIM_OF_A_HELD_PLACE_REPLACES_ITS_PEER: &[Row] = &[
    (1, 0, Turn::Conn(b'A'), Some((0, 0)), JOINS, JOIN),
    (2, 0, Turn::Conn(b'A'), Some((1, 0)), JOINS, JOIN),
    (3, 15, Turn::Conn(b'A'), Some((1, 1)), JOINS, LEAVE_AND_JOIN),
];

#[test]
fn evenings_of_a_few_peers(rt: HostRuntime) {
    const ENDED: Left = Left {
        known: 0,
        ended: true,
        held: [false; 3],
    };
    const TWO: Left = Left {
        known: 2,
        ended: false,
        held: [true, true, false],
    };
    const EVENINGS: [Evening; 2] = [
        (64, TWO_PEERS, ENDED),
        (64, A_CLAIM_OF_A_HELD_PLACE_REPLACES_ITS_PEER, TWO),
    ];
    for (places, rows, left) in EVENINGS {
        assert!(rt; places > 0 && places <= 256);
        assert!(rt; left_by(&rt, rt.alloc(), places, rows) == left);
    }
}

#[test]
fn the_sixteenth_failure_in_a_row_ends_the_link(rt: HostRuntime) {
    const FAULT: Row = (0, 0, Turn::Fault, None, Want::Faulted, QUIET);
    const FIFTEEN: &[Row] = &[FAULT; 15];
    const TIME: &[Row] = &[(0, 0, Turn::Quiet, None, Want::Timed, QUIET)];
    const LAST: &[Row] = &[(0, 0, Turn::Fault, None, Want::Ended, STOPS)];
    let (mut d, mut post) = start(&rt, rt.alloc(), 64);
    for (from, rows) in [(0, FIFTEEN), (15, TIME), (16, FIFTEEN), (31, LAST)] {
        hear_rows(&rt, 64, &mut d, &mut post, from, rows);
    }
}

// Whether the next event is that this member leaves, with this reason.
fn is_next_to_leave(post: &mut Post, k: Member, because: Why) -> bool {
    match post.take() {
        Some(
            Dispatch::ToModule {
                event: Event {
                    body: Body::Leave { member, why },
                    ..
                },
                ..
            },
        ) => member == k && why == because,
        _ => false,
    }
}

#[test]
fn peers_leave_in_order_of_families(rt: HostRuntime) {
    const ROWS: &[Row] = &[
        (129, 0, Turn::Conn(b'A'), Some((0, 0)), JOINS, JOIN),
        (9, 0, Turn::Conn(b'A'), Some((1, 0)), JOINS, JOIN),
        (4, 0, Turn::Conn(b'A'), Some((2, 0)), JOINS, JOIN),
    ];
    let (mut d, mut post) = start(&rt, rt.alloc(), 64);
    hear_rows(&rt, 64, &mut d, &mut post, 0, ROWS);
    assert!(&rt; !d.has_ended());
    let ended = d.hear(3, &Heard::End, &mut post) == LinkVerdict::Ended;
    for place in [2, 1, 0] {
        assert!(&rt; ended && is_next_to_leave(&mut post, member(place, 0), Why::Stopped));
    }
}
