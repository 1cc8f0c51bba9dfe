//! Ears over sockets and clocks that a test makes, which fail where it tells them to.
use crate::bench::must;
use crate::net_bench::{
    Answer, BROKEN, Beats, Gives, Hands, INTERRUPTED, LATE, NETWORK_DOWN, NO_HOST, NO_NETWORK,
    REFUSED, Scripted, WAITED, nothing_seen, peer,
};
use m17_net::{Stop, UdpEar};
use m17_ports::Ear;
use m17_values::{Gram, Heard};
use std::process::Abort;
use std::sync::Arc;
use std::sync::atomic::{AtomicBool, Ordering};
use std::time::Instant;

// An ear on a socket that answers so, which ends at this moment.
fn ear_of<'a, R: Abort>(
    rt: &R,
    clock: Beats<'a>,
    answers: &'a [Answer],
    until: Option<u64>,
) -> UdpEar<Beats<'a>, Scripted<'a>> {
    let start = must(rt, Instant::now(&clock));
    let wire = Scripted {
        answers,
        seen: clock.seen,
    };
    UdpEar::new(clock, wire, start, until, false, 0)
}

// What an ear of the tests says: a datagram of these bytes at 10 ms, nothing until this moment, a fault, or the end.
#[derive(Clone, Copy)]
enum Told {
    Came(&'static [u8]),
    Quiet(u64),
    Fault,
    End,
}

use Told::{Came, Quiet};

// Whether this is what an ear said.
fn is(heard: Heard, told: Told) -> bool {
    let wanted = match told {
        Came(bytes) => Heard::Datagram {
            from: peer(9),
            at: 10,
            bytes: Gram::of(bytes),
        },
        Quiet(at) => Heard::Quiet { at },
        Told::Fault => Heard::Fault,
        Told::End => Heard::End,
    };
    heard == wanted
}

// What a socket answers, what the ear hears first, how often it called the socket, and for how long it rested.
const HEARD: [(&[Answer], Told, usize, u64); 12] = [
    (&[Gives(b"abc")], Came(b"abc"), 1, 0),
    (&[Gives(b"")], Came(b""), 1, 0),
    (&[WAITED], Quiet(10), 1, 0),
    (&[LATE], Quiet(10), 1, 0),
    (&[INTERRUPTED, REFUSED, Gives(b"d")], Came(b"d"), 3, 0),
    (&[REFUSED, WAITED], Quiet(10), 2, 0),
    (&[REFUSED], Quiet(10), 16, 20),
    (&[NO_HOST, Gives(b"e")], Came(b"e"), 2, 0),
    (&[NO_NETWORK, Gives(b"e")], Came(b"e"), 2, 0),
    (&[NETWORK_DOWN, Gives(b"e")], Came(b"e"), 2, 0),
    (&[BROKEN], Told::Fault, 1, 20),
    (&[INTERRUPTED, BROKEN], Told::Fault, 2, 20),
];

// Whether an ear on such a socket hears this first, how often it called the socket, and for how long it rested.
fn first_of<R: Abort>(rt: &R, answers: &[Answer], told: Told) -> (bool, usize, u64) {
    let seen = nothing_seen();
    let clock = Beats {
        seen: &seen,
        until: 100,
    };
    let mut ear = ear_of(rt, clock, answers, None);
    let heard = is(ear.hear(), told);
    (heard, seen.calls.get(), seen.slept.get())
}

// Of errors that are not the socket's the ear says nothing, but it rests after 16 of them; a broken socket is a Fault,
// and costs time.
#[test]
fn an_ear_passes_over_errors_that_are_not_its_sockets(rt: HostRuntime) {
    for (answers, told, calls, slept) in HEARD {
        assert!(rt; first_of(&rt, answers, told) == (true, calls, slept));
    }
}

#[test]
fn an_ear_ends_at_its_moment_and_leaves_its_socket_alone(rt: HostRuntime) {
    let seen = nothing_seen();
    let clock = Beats {
        seen: &seen,
        until: 100,
    };
    let mut ear = ear_of(&rt, clock, &[Gives(b"x")], Some(15));
    for told in [Came(b"x"), Told::End, Told::End] {
        assert!(rt; is(ear.hear(), told));
    }
    let calls = seen.calls.get();
    let mut over = ear_of(&rt, clock, &[Gives(b"x")], Some(0));
    assert!(rt; is(over.hear(), Told::End) && (calls, seen.calls.get()) == (2, 2));
}

// Moments are whole milliseconds since the start, the first reading here. A reading that lies before an earlier one, or
// before the start, takes no moment back, and the End comes at the first moment that is the ear's end or more.
#[test]
fn moments_are_whole_milliseconds_since_the_start(rt: HostRuntime) {
    let seen = nothing_seen();
    let clock = Hands {
        nanos: &[
            5_000_000, 0, 5_999_999, 6_000_000, 19_999_999, 8_000_000, 20_000_000,
        ],
        seen: &seen,
    };
    let start = must(&rt, Instant::now(&clock));
    let wire = Scripted {
        answers: &[WAITED],
        seen: &seen,
    };
    let mut ear = UdpEar::new(clock, wire, start, Some(15), false, 0);
    for at in [0, 0, 1, 14, 14] {
        assert!(rt; is(ear.hear(), Quiet(at)));
    }
    assert!(rt; is(ear.hear(), Told::End) && is(ear.hear(), Told::End));
}

// What the socket answers to each call of an ear that ends at 66,000 ms, the moments that the clock reads, the first of them
// before all calls, and how long the socket is to wait at each call, with how often it was told so.
const RESTING: [Answer; 9] = [
    WAITED,
    WAITED,
    Gives(b"x"),
    WAITED,
    WAITED,
    WAITED,
    WAITED,
    WAITED,
    WAITED,
];

const RESTING_NANOS: [u64; 10] = [
    0,
    5_000_000_000,
    10_000_000_000,
    11_000_000_000,
    11_020_000_000,
    50_999_000_000,
    51_000_000_000,
    55_000_000_000,
    56_001_000_000,
    66_000_000_000,
];

const RESTING_WAITS: [(u64, u64); 9] = [
    (5_000, 1),
    (5_000, 1),
    (5_000, 1),
    (20, 2),
    (20, 2),
    (20, 2),
    (5_000, 3),
    (5_000, 3),
    (20, 4),
];

// The waits that the socket of such an ear was told, the last and how many, behind each of nine calls, and whether the ear
// ended with the ninth.
fn waits_of<R: Abort>(rt: &R, rests: bool) -> ([(u64, u64); 9], bool) {
    let seen = nothing_seen();
    let clock = Hands {
        nanos: &RESTING_NANOS,
        seen: &seen,
    };
    let start = must(rt, Instant::now(&clock));
    let wire = Scripted {
        answers: &RESTING,
        seen: &seen,
    };
    let mut ear = UdpEar::new(clock, wire, start, Some(66_000), rests, 0);
    let mut waits = [(0, 0); 9];
    let mut ended = false;
    for wait in &mut waits {
        ended = ear.hear() == Heard::End;
        *wait = seen.waits.get();
    }
    (waits, ended)
}

// An ear that may rest waits long where nothing came yet, and again 40 seconds after a datagram; behind that datagram, and
// where its end is near, it waits for 20 ms. The socket is told where that changes. An ear that may not tells it nothing.
#[test]
fn an_ear_waits_long_where_nobody_is_there(rt: HostRuntime) {
    assert!(rt; waits_of(&rt, true) == (RESTING_WAITS, true));
    assert!(rt; waits_of(&rt, false) == ([(0, 0); 9], true));
}

// A stop is seen at the next call, which leaves the socket alone. Until then it waits for a second where nobody is there.
#[test]
fn an_ear_that_is_stopped_ends_at_its_next_call(rt: HostRuntime) {
    let seen = nothing_seen();
    let clock = Beats {
        seen: &seen,
        until: 100,
    };
    let flag = must(&rt, Arc::new(rt.alloc(), AtomicBool::new(false)));
    let stop = Stop::at(must(&rt, Arc::try_clone(&flag)));
    let start = must(&rt, Instant::now(&clock));
    let wire = Scripted {
        answers: &[WAITED],
        seen: &seen,
    };
    let mut ear = UdpEar::new(clock, wire, start, None, true, 0).stopped_by(stop);
    let quiet = matches!(ear.hear(), Heard::Quiet { .. });
    flag.store(true, Ordering::SeqCst);
    let ended = ear.hear() == Heard::End && ear.hear() == Heard::End;
    assert!(rt; quiet && ended && seen.waits.get() == (1_000, 1) && seen.calls.get() == 1);
}

#[test]
fn a_clock_that_fails_is_a_fault(rt: HostRuntime) {
    let seen = nothing_seen();
    let clock = Beats {
        seen: &seen,
        until: 1,
    };
    let mut ear = ear_of(&rt, clock, &[Gives(b"x")], None);
    assert!(rt; is(ear.hear(), Told::Fault) && is(ear.hear(), Told::Fault));
}
