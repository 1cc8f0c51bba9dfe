//! What no clause says of what is left: in which order it is said, and what becomes of it where a mouth fails.
ghost use Rattle.std.specs.Prelude.{◌≡◌, ◌∷◌, [], map, length};

use crate::bench::{must, name};
use m17_control::{Control, Direct, Item, Said};
use m17_lane::{Trail, finish_one, make_one};
use m17_port_memory::ListMouth;
use m17_reflect::say_rest;
use m17_values::{Member, Peer};
use std::alloc::Global;
use std::process::Abort;
use std::sync::Wait;

// A finished lane: the first item was popped, and the other two are left.
fn with_two_left<T: Drop, R: Abort + Wait>(
    rt: &R,
    alloc: Global,
    gone: T,
    first: T,
    second: T,
) -> Trail<T> {
    let (mut pusher, mut popper) = must(rt, make_one(alloc, 64));
    pusher.push_waiting(rt, gone);
    pusher.push_waiting(rt, first);
    pusher.push_waiting(rt, second);
    let _gone = popper.pop_waiting(rt);
    finish_one(pusher, popper)
}

fn two<T: Drop, R: Abort>(rt: &R, alloc: Global, one: T, other: T) -> Vec<T>
    ensures { result.items ≡ one ∷ other ∷ [] }
{
    let mut both = must(rt, Vec::with_capacity(alloc, 2));
    both.push_reserved(one);
    both.push_reserved(other);
    both
}

// Two modules with two places each.
fn two_rows<T: Drop, R: Abort>(rt: &R, alloc: Global, first: (T, T), second: (T, T)) -> Vec<Vec<T>>
    ensures { map (λ row. length row.items) result.items ≡ 2 ∷ 2 ∷ [] }
{
    let one = two(rt, alloc, first.0, first.1);
    let other = two(rt, alloc, second.0, second.1);
    two(rt, alloc, one, other)
}

fn peer(port: u16) -> Peer {
    Peer {
        six: false,
        ip: [0; 16],
        port,
    }
}

// Something for the peer with this port.
fn item(link: u8, port: u16, body: Said) -> Item {
    Item {
        member: Member {
            place: 0,
            generation: 0,
        },
        link,
        peer: peer(port),
        body,
    }
}

fn ping(link: u8, port: u16) -> Item {
    item(link, port, Said::Ping)
}

fn hello(link: u8, port: u16) -> Item {
    item(link, port, Said::Hello { after: 9 })
}

fn reply(link: u8, port: u16) -> Direct {
    Direct {
        link,
        peer: peer(port),
        control: Control::Nack,
    }
}

// The finished queues: two pings of each. One of the pings names no link.
fn queues<R: Abort + Wait>(rt: &R, alloc: Global) -> Vec<Vec<Trail<Item>>>
    ensures { map (λ row. length row.items) result.items ≡ 2 ∷ 2 ∷ [] }
{
    let a = with_two_left(rt, alloc, ping(0, 9), ping(0, 10), ping(1, 11));
    let b = with_two_left(rt, alloc, ping(0, 9), ping(0, 12), ping(2, 13));
    let c = with_two_left(rt, alloc, ping(0, 9), ping(0, 14), ping(0, 15));
    let d = with_two_left(rt, alloc, ping(0, 9), ping(1, 16), ping(0, 17));
    two_rows(rt, alloc, (a, b), (c, d))
}

// Two mouths, of which the first fails at these calls, when all that is left was said: two replies, a greeting that was
// held back at the second module's first place, and two pings of each queue.
fn mouths_after<R: Abort + Wait>(rt: &R, alloc: Global, fails: Vec<u64>) -> Vec<ListMouth> {
    let first = must(rt, ListMouth::make(alloc, 4000, fails));
    let second = must(rt, ListMouth::make(alloc, 4000, Vec::new(alloc)));
    let mut mouths = two(rt, alloc, first, second);
    let mut door = with_two_left(rt, alloc, reply(0, 1), reply(0, 2), reply(1, 3));
    let held = two_rows(rt, alloc, (None, None), (Some(hello(0, 30)), None));
    let mut queues = queues(rt, alloc);
    say_rest(rt, name(rt), &mut mouths, &mut door, &held, &mut queues);
    mouths
}

// A datagram: the port that it went to, and how it begins.
type Begins = (u16, [u8; 4]);

// What a mouth said.
fn said_by(mouth: &ListMouth, at: usize) -> Option<Begins> {
    let (to, gram) = mouth.list().get(at)?;
    match gram.bytes() {
        [a, b, c, d, ..] => Some((to.port, [*a, *b, *c, *d])),
        _ => None,
    }
}

// The mouth said these datagrams, and no more.
fn expect_said(rt: &impl Abort, mouth: &ListMouth, wanted: &[Begins]) {
    for (at, datagram) in wanted.iter().enumerate() {
        assert!(rt; said_by(mouth, at) == Some(*datagram), "datagram {at}");
    }
    assert!(rt; said_by(mouth, wanted.len()).is_none());
}

// The two mouths said these datagrams.
fn expect_both(rt: &impl Abort, mouths: &Vec<ListMouth>, first: &[Begins], second: &[Begins]) {
    assert!(rt; mouths.len() == 2);
    for (mouth, wanted) in mouths.iter().zip([first, second]) {
        expect_said(rt, mouth, wanted);
    }
}

const BY_THE_FIRST: [Begins; 7] = [
    (2, *b"NACK"),
    (10, *b"PING"),
    (12, *b"PING"),
    (30, *b"ACKN"),
    (14, *b"PING"),
    (15, *b"PING"),
    (17, *b"PING"),
];

const BY_THE_SECOND: [Begins; 3] = [(3, *b"NACK"), (11, *b"PING"), (16, *b"PING")];

#[test]
fn the_door_is_said_first_and_a_held_greeting_before_its_queue(rt: HostRuntime) {
    let mouths = mouths_after(&rt, rt.alloc(), Vec::new(rt.alloc()));
    expect_both(&rt, &mouths, &BY_THE_FIRST, &BY_THE_SECOND);
}

// What the first one says where its second call fails.
const BUT_ONE: [Begins; 6] = [
    (2, *b"NACK"),
    (12, *b"PING"),
    (30, *b"ACKN"),
    (14, *b"PING"),
    (15, *b"PING"),
    (17, *b"PING"),
];

#[test]
fn where_a_mouth_fails_one_datagram_is_lost(rt: HostRuntime) {
    let fails = must(&rt, Vec::from_array(rt.alloc(), [1]));
    let mouths = mouths_after(&rt, rt.alloc(), fails);
    expect_both(&rt, &mouths, &BUT_ONE, &BY_THE_SECOND);
}
