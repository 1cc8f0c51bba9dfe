//! What no clause says of a board.
ghost use Rattle.std.specs.Prelude.{◌≡◌};
ghost use Rattle.m17_board.specs.Ends.{IsPair};

use crate::bench::must;
use crate::board_bench::{join, leave, member, one_pair, packet};
use m17_board::{Eye, Glance, Poster, close, make};
use m17_book::Record;
use m17_floor::Verdict;
use m17_samples::ab1cd;
use m17_values::Address;
use std::process::Abort;
use std::sync::Wait;
use std::test::Fail;
use std::thread;
use std::thread::Threads;

// Posts the record, tells the eye so, and looks.
fn shown<R: Wait>(rt: &R, poster: &mut Poster, eye: &mut Eye, one: &Record) -> Glance
    requires { IsPair poster.old eye.old }
    ensures { IsPair poster.new eye.new }
{
    poster.post(rt, one);
    eye.told(poster.note());
    eye.look(rt)
}

// The glance with these fields, where AB1CD talks, if anybody does.
fn glance<R: Abort>(rt: &R, records: u64, admitted: u64, moment: u64, on: bool) -> Glance {
    let nobody = Address::new(0).expect(rt, "an address");
    Glance {
        records,
        admitted,
        moment,
        on,
        src: if on { ab1cd() } else { nobody },
    }
}

#[test]
fn a_glance_is_what_the_records_come_to(rt: HostRuntime) -> Result<(), Fail> {
    let (mut poster, mut eye) = one_pair(&rt, rt.alloc());
    let busy = Verdict::Busy { holder: member(0) };
    let steps = [
        (join(&rt, 10, 0), glance(&rt, 1, 0, 10, false)),
        (
            packet(20, 0, Verdict::Opened, false),
            glance(&rt, 2, 1, 20, true),
        ),
        (packet(30, 1, busy, true), glance(&rt, 3, 1, 30, true)),
        (leave(40, 1), glance(&rt, 4, 1, 40, true)),
        (leave(50, 0), glance(&rt, 5, 1, 50, false)),
        (
            packet(60, 0, Verdict::Continued, false),
            glance(&rt, 6, 2, 60, true),
        ),
        (
            packet(70, 0, Verdict::Continued, true),
            glance(&rt, 7, 3, 70, false),
        ),
        (
            packet(80, 0, Verdict::Repeat, false),
            glance(&rt, 8, 3, 80, false),
        ),
    ];
    for (one, expected) in &steps {
        let seen = shown(&rt, &mut poster, &mut eye, one);
        assert!(rt; seen == *expected);
    }
    Ok(())
}

#[test]
fn a_board_without_posts_closes_with_zeros(rt: HostRuntime) -> Result<(), Fail> {
    let (posters, eyes) = must(&rt, make(rt.alloc(), 3));
    let last = must(&rt, close(&rt, rt.alloc(), posters, eyes));
    assert!(rt; last.len() == 3);
    for seen in &last {
        assert!(rt; *seen == glance(&rt, 0, 0, 0, false));
    }
    Ok(())
}

// Posts that many records.
fn post_many<R: Wait>(rt: &R, poster: Poster, one: Record, count: u64) -> Poster {
    let mut poster = poster;
    for _ in 0..count {
        poster.post(rt, &one);
    }
    poster
}

// Looks until so many records are seen, and says whether the number never fell and never passed that.
fn look_up_to<R: Wait>(rt: &R, eye: Eye, count: u64) -> bool {
    let mut eye = eye;
    let mut before = 0;
    for _ in rt.forever() {
        let seen = eye.look(rt).records;
        if seen < before || seen >= count {
            return seen == count;
        }
        before = seen;
    }
    unreachable!()
}

#[test]
fn an_eye_in_another_thread_comes_to_see_all(rt: HostRuntime) -> Result<(), Fail> {
    let (poster, eye) = one_pair(&rt, rt.alloc());
    let one = join(&rt, 10, 0);
    let (poster, rose) = both(&rt, poster, eye, one, 1000);
    assert!(rt; rose && poster.glance().records == 1000);
    Ok(())
}

// One thread posts, and another looks.
fn both<R: Threads + Wait + Sync>(
    rt: &R,
    poster: Poster,
    eye: Eye,
    one: Record,
    count: u64,
) -> (Poster, bool) {
    thread::join(
        rt,
        move || post_many(rt, poster, one, count),
        move || look_up_to(rt, eye, count),
    )
}
