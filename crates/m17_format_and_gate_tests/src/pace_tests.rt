ghost use Rattle.std.specs.Prelude.{◌<◌};

use crate::bench::must;
use m17_decorators::{LinkPaces, Paced, Stopwatch};
use m17_port_memory::{ListMouth, TallyMouth};
use m17_ports::Mouth;
use m17_samples::peer;
use m17_values::Peer;
use std::alloc::Global;
use std::cell::Cell;
use std::process::Abort;

/// A clock whose readings are these moments, and which fails then.
#[derive(Clone, Copy)]
struct Script {
    moments: [u64; 8],
    reads: usize,
}

impl Stopwatch for Script {
    ghost use Rattle.std.specs.Prelude.{None};

    ghost answers = { λ _. None };

    fn read(&mut self) -> Option<u64> {
        let at = *self.moments.get(self.reads)?;
        self.reads += 1;
        Some(at)
    }
}

/// What a test sets of a clock that goes on by so many milliseconds at each reading, and what it sees of it.
#[derive(Drop)]
struct Hand {
    step: Cell<u64>,
    at: Cell<u64>,
    reads: Cell<u64>,
}

fn hand_of(step: u64) -> Hand {
    Hand {
        step: Cell::new(step),
        at: Cell::new(0),
        reads: Cell::new(0),
    }
}

#[derive(Clone, Copy)]
struct Steady<'a> {
    hand: &'a Hand,
}

impl Stopwatch for Steady<'_> {
    ghost use Rattle.std.specs.Prelude.{None};

    ghost answers = { λ _. None };

    fn read(&mut self) -> Option<u64> {
        let hand = self.hand;
        hand.reads.set(hand.reads.get().saturating_add(1));
        let at = hand.at.get().saturating_add(hand.step.get());
        hand.at.set(at);
        Some(at)
    }
}

/// The bytes of a stream packet, or of a PING.
fn bytes_of(is_frame: bool) -> [u8; 54] {
    let mut bytes = [0; 54];
    let magic = if is_frame { b"M17 " } else { b"PING" };
    bytes[..4].copy_from_slice(magic);
    bytes
}

/// What the clock tells before each frame.
const MOMENTS: [u64; 8] = [0, 10, 20, 30, 1_000, 1_011, 1_012, 1_021];

/// The last byte of a peer, whether it is sent a frame, and whether that passes, where two may.
const STEPS: [(u8, bool, bool); 11] = [
    (1, true, true),
    (1, true, true),
    (1, true, false),
    // what is no frame passes, and does not count
    (1, false, true),
    (1, false, true),
    // another peer
    (2, true, true),
    // the first two count for more than a second after the moment that was told behind each
    (1, true, false),
    (1, true, true),
    (1, true, false),
    (1, true, true),
    // where the clock fails, what is known decides
    (1, true, false),
];

#[test]
fn frames_that_are_over_fail(rt: HostRuntime) {
    let alloc = rt.alloc();
    let mouth = must(&rt, ListMouth::make(alloc, 16, Vec::new(alloc)));
    let clock = Script {
        moments: MOMENTS,
        reads: 0,
    };
    let mut paces = must(&rt, LinkPaces::make(alloc, 2, 1));
    let mut paced = paces.behind(mouth, clock);
    for (last, is_frame, passes) in &STEPS {
        let said = paced.say(&peer(*last), &bytes_of(*is_frame));
        assert!(rt; said.is_ok() == *passes);
    }
    assert!(rt; paced.into_inner().list().len() == 7);
}

/// A mouth that never fails, behind a pace of so many frames that goes by this clock.
fn paced_at<'a, R: Abort>(
    rt: &R,
    alloc: Global,
    most: usize,
    hand: &'a Hand,
) -> Paced<TallyMouth, Steady<'a>> {
    let mut paces = must(rt, LinkPaces::make(alloc, most, 1));
    let mouth = must(rt, TallyMouth::make(alloc, &[]));
    paces.behind(mouth, Steady { hand })
}

/// Whether a frame to this peer passes.
fn passes(mouth: &mut Paced<TallyMouth, Steady<'_>>, to: &Peer) -> bool {
    mouth.say(to, &bytes_of(true)).is_ok()
}

/// How many of so many frames to one peer pass, and how often the clock is read for them.
fn passed<R: Abort>(rt: &R, alloc: Global, most: usize, count: u16, step: u64) -> (u64, u64) {
    let hand = hand_of(step);
    let mut mouth = paced_at(rt, alloc, most, &hand);
    let mut passed = 0u64;
    for _ in 0..count {
        if passes(&mut mouth, &peer(1)) {
            passed = passed.saturating_add(1);
        }
    }
    (passed, hand.reads.get())
}

#[test]
fn the_clock_is_read_once_for_64_frames(rt: HostRuntime) {
    assert!(rt; passed(&rt, rt.alloc(), 1_000, 193, 1) == (193, 4));
    assert!(rt; passed(&rt, rt.alloc(), 100, 36, 1) == (36, 3));
    // once more before each frame that is refused
    assert!(rt; passed(&rt, rt.alloc(), 100, 103, 1) == (100, 12));
    assert!(rt; passed(&rt, rt.alloc(), 100, 1_000, 400) == (1_000, 84));
}

/// How often the clock is read for so many frames to as many peers in turn.
fn reads_for<R: Abort>(rt: &R, alloc: Global, most: usize, peers: u16, count: u16) -> u64
    requires { 0 < peers }
{
    let hand = hand_of(400);
    let mut mouth = paced_at(rt, alloc, most, &hand);
    let mut to = peer(1);
    for turn in 0..count {
        to.port = turn % peers;
        let _passes = passes(&mut mouth, &to);
    }
    hand.reads.get()
}

#[test]
fn the_clock_is_read_once_for_64_frames_to_several_peers(rt: HostRuntime) {
    // six listeners of one link, each of which is sent at most an eighth of 100 between readings
    assert!(rt; reads_for(&rt, rt.alloc(), 100, 6, 640) == 10);
    assert!(rt; reads_for(&rt, rt.alloc(), 100, 5, 600) == 10);
    assert!(rt; reads_for(&rt, rt.alloc(), 100, 2, 240) == 10);
}

/// Whether each of 256 peers is sent a frame.
fn pass_to_256(mouth: &mut Paced<TallyMouth, Steady<'_>>) -> bool {
    let mut to = peer(1);
    for port in 0..256 {
        to.port = port;
        if !passes(mouth, &to) {
            return false;
        }
    }
    true
}

#[test]
fn places_are_for_256_peers_at_a_time(rt: HostRuntime) {
    let hand = hand_of(1);
    let mut mouth = paced_at(&rt, rt.alloc(), 1, &hand);
    let other = Peer {
        port: 256,
        ..peer(1)
    };
    let all = pass_to_256(&mut mouth);
    let more = passes(&mut mouth, &other);
    hand.step.set(500);
    let then = [passes(&mut mouth, &other), passes(&mut mouth, &other)];
    assert!(rt; all && !more && then == [false, true]);
}

/// How many of three frames to one peer the mouth of the next link says, where so many may pass.
fn said<R: Abort>(rt: &R, alloc: Global, mut paces: LinkPaces) -> usize {
    let clock = Script {
        moments: MOMENTS,
        reads: 0,
    };
    let mouth = must(rt, ListMouth::make(alloc, 8, Vec::new(alloc)));
    let mut mouth = paces.behind(mouth, clock);
    for _ in 0..3 {
        let _ = mouth.say(&peer(1), &bytes_of(true));
    }
    mouth.into_inner().list().len()
}

#[test]
fn mouths_of_links_are_paced(rt: HostRuntime) {
    let alloc = rt.alloc();
    assert!(rt; said(&rt, alloc, must(&rt, LinkPaces::make(alloc, 2, 1))) == 2);
    // a link for which there is no pace left says no frame; without a bound each passes
    assert!(rt; said(&rt, alloc, must(&rt, LinkPaces::make(alloc, 2, 0))) == 0);
    assert!(rt; said(&rt, alloc, LinkPaces::none(alloc)) == 3);
}
