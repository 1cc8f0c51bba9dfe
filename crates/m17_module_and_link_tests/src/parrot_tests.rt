ghost use Rattle.std.specs.Prelude.{IsTrue};
ghost use Rattle.m17_module.specs.Recording.{is_going_on};

use m17_lsd::Lsd;
use m17_module::{Kept, Parrot};
use m17_stream::StreamPacket;
use m17_values::{Address, Member};
use std::alloc::Global;
use std::process::Abort;

fn member(place: u32) -> Member {
    Member {
        place,
        generation: 7,
    }
}

fn packet(sid: u16, number: u16, last: bool) -> StreamPacket {
    StreamPacket {
        sid,
        lsd: Lsd {
            dst: Address::broadcast(),
            src: Address::broadcast(),
            kind: 5,
            meta: [3; 14],
        },
        number: number & 0x7fff,
        last,
        payload: [9; 16],
    }
}

fn made(rt: &impl Abort, alloc: Global) -> Parrot {
    Parrot::make(alloc).ok().expect(rt, "memory")
}

// Keeps so many frames more of the stream 1234 (hex), and answers how many were held.
fn keeps(parrot: &mut Parrot, frames: u16) -> u16
    requires { IsTrue (is_going_on parrot.old) }
    ensures { IsTrue (is_going_on parrot.new) }
{
    let mut held = 0u16;
    for number in 0..frames {
        if parrot.keep(&packet(0x1234, number, false)) == Kept::Held {
            held = held.saturating_add(1);
        }
    }
    held
}

// Frame n comes back at the moment that it is due, and not a millisecond earlier.
fn comes_back(rt: &impl Abort, parrot: &mut Parrot, k: Member, n: u16, due: u64, last: bool) {
    assert!(rt; parrot.due(due.saturating_sub(1)) == None);
    assert!(rt; parrot.due(due) == Some((k, packet(0xedcb, n, last))));
}

#[test]
fn frames_come_back_one_by_one(rt: HostRuntime) {
    let mut parrot = made(&rt, rt.alloc());
    let k = member(3);
    assert!(rt; parrot.due(5_000) == None);
    parrot.opened(k);
    assert!(rt; parrot.keep(&packet(0x1234, 0, false)) == Kept::Held);
    assert!(rt; parrot.keep(&packet(0x1234, 1, false)) == Kept::Held);
    assert!(rt; parrot.keep(&packet(0x1234, 2, true)) == Kept::Held);
    assert!(rt; parrot.due(90_000) == None);
    parrot.close(100);
    parrot.close(7_000);
    comes_back(&rt, &mut parrot, k, 0, 1_100, false);
    comes_back(&rt, &mut parrot, k, 1, 1_140, false);
    parrot.gone(member(4));
    // However late, one for each call.
    assert!(rt; parrot.due(60_000) == Some((k, packet(0xedcb, 2, true))));
    assert!(rt; parrot.due(60_000) == None);
}

#[test]
fn a_new_opening_and_a_member_that_goes_forget_all(rt: HostRuntime) {
    let mut parrot = made(&rt, rt.alloc());
    parrot.opened(member(0));
    assert!(rt; keeps(&mut parrot, 5) == 5);
    parrot.close(0);
    parrot.opened(member(1));
    assert!(rt; parrot.keep(&packet(0x1234, 9, false)) == Kept::Held);
    parrot.close(2_000);
    comes_back(&rt, &mut parrot, member(1), 9, 3_000, true);
    assert!(rt; parrot.due(9_000) == None);
    parrot.opened(member(1));
    assert!(rt; keeps(&mut parrot, 2) == 2);
    parrot.close(9_000);
    parrot.gone(member(1));
    assert!(rt; parrot.due(90_000) == None);
}

#[test]
fn half_a_minute_is_held(rt: HostRuntime) {
    let mut parrot = made(&rt, rt.alloc());
    let k = member(0);
    parrot.opened(k);
    assert!(rt; keeps(&mut parrot, 749) == 749);
    assert!(rt; parrot.keep(&packet(0x1234, 749, false)) == Kept::Held);
    assert!(rt; parrot.keep(&packet(0x1234, 750, true)) == Kept::Full);
    assert!(rt; keeps(&mut parrot, 3) == 0);
    parrot.close(30_000);
    for n in 0..750u16 {
        comes_back(&rt, &mut parrot, k, n, 31_000 + 40 * u64::from(n), n == 749);
    }
    assert!(rt; parrot.due(90_000) == None);
}
