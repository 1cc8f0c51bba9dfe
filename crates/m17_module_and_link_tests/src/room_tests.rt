ghost use Rattle.std.specs.Prelude.{◌≡◌, [], None, IsSome};

use crate::directory_tests::{call, conn, letter};
use m17_control::{Body, Control, Event, Modules, Why};
use m17_directory::{Act, Directory, Dispatch, LinkVerdict, Post};
use m17_samples::member;
use m17_values::{Heard, Member, Peer};
use std::alloc::Global;
use std::process::Abort;

fn start(rt: &impl Abort, alloc: Global) -> (Directory, Post)
    ensures asked { result.0.asked ≡ None }
    ensures places { result.0.setup.places ≡ 256 }
    ensures posted { result.1 ≡ [] }
{
    let modules = Modules::read("A").ok().expect(rt, "modules");
    let d = Directory::make(alloc, 0, call(rt, "M17-TST"), 256, modules);
    let d = d.ok().expect(rt, "memory");
    let post = Post::make(alloc).ok().expect(rt, "memory");
    (d, post)
}

// Peer n of a house of 256 and more: their order is that of the numbers.
fn peer(house: u8, n: u32) -> Peer {
    let mut ip = [0; 16];
    ip[0] = 10;
    ip[1] = house;
    let bytes = n.to_be_bytes();
    ip[2] = bytes[2];
    ip[3] = bytes[3];
    Peer {
        six: false,
        ip,
        port: 17_000,
    }
}

// What was posted: a Join of a member, its Leave because it was silent, a Tick, a NACK, nothing, or something else.
#[derive(Clone, Copy, PartialEq, Eq)]
enum Next {
    Join(Member),
    Silent(Member),
    Tick,
    Nack,
    Nothing,
    Other,
}

fn of_event(event: &Event) -> Next {
    match &event.body {
        Body::Join { member, .. } => Next::Join(*member),
        Body::Leave { member, why } if *why == Why::Silent => Next::Silent(*member),
        Body::Tick => Next::Tick,
        _ => Next::Other,
    }
}

fn taken(post: &mut Post) -> Next {
    match post.take() {
        Some(Dispatch::ToModule { event, .. }) => of_event(&event),
        Some(Dispatch::ToDoor(direct)) if direct.control == Control::Nack => Next::Nack,
        Some(Dispatch::ToDoor(_)) => Next::Other,
        None => Next::Nothing,
    }
}

// The next that was posted is this.
fn comes(rt: &impl Abort, post: &mut Post, next: Next) {
    assert!(rt; taken(post) == next);
}

// A peer asks at this moment.
fn asks(rt: &impl Abort, d: &mut Directory, post: &mut Post, index: u64, from: &Peer, at: u64)
    requires nothing_asked { d.old.asked ≡ None }
    requires places { d.old.setup.places ≡ 256 }
    ensures asked { IsSome d.new.asked }
    ensures places { d.new.setup.places ≡ 256 }
    ensures posted { post.new ≡ [] }
{
    assert!(rt; !d.has_ended());
    assert!(rt; post.is_empty());
    let verdict = d.hear(index, &conn(rt, from, at, b'A'), post);
    assert!(rt; matches!(verdict, LinkVerdict::Asks));
    assert!(rt; post.is_empty());
}

// It gets the place.
fn joins(rt: &impl Abort, d: &mut Directory, post: &mut Post, m: Member)
    requires asked { IsSome d.old.asked }
    requires places { d.old.setup.places ≡ 256 }
    ensures nothing_asked { d.new.asked ≡ None }
    ensures places { d.new.setup.places ≡ 256 }
{
    assert!(rt; !d.waits());
    assert!(rt; post.is_empty());
    assert!(rt; m.place < 256);
    let joined = LinkVerdict::Routed {
        module: letter(rt, b'A'),
        act: Act::Join,
    };
    let verdict = d.settle(Some(m), 0, post);
    assert!(rt; verdict == joined);
    comes(rt, post, Next::Join(m));
    comes(rt, post, Next::Nothing);
}

// It gets none.
fn is_turned_away(rt: &impl Abort, d: &mut Directory, post: &mut Post)
    requires asked { IsSome d.old.asked }
    requires places { d.old.setup.places ≡ 256 }
    ensures nothing_asked { d.new.asked ≡ None }
    ensures places { d.new.setup.places ≡ 256 }
{
    assert!(rt; !d.waits());
    assert!(rt; post.is_empty());
    let verdict = d.settle(None, 0, post);
    assert!(rt; verdict == LinkVerdict::Full);
    comes(rt, post, Next::Nack);
    comes(rt, post, Next::Nothing);
}

// Peers 255 to 0 of the house get places 0 to 255.
fn all_join(rt: &impl Abort, d: &mut Directory, post: &mut Post, house: u8, at: u64)
    requires nothing_asked { d.old.asked ≡ None }
    requires places { d.old.setup.places ≡ 256 }
    ensures nothing_asked { d.new.asked ≡ None }
    ensures places { d.new.setup.places ≡ 256 }
{
    for place in 0..256 {
        assert!(rt; d.known() == place);
        let from = peer(house, 255 - place);
        asks(rt, d, post, u64::from(place), &from, at);
        joins(rt, d, post, member(place, u64::from(house)));
    }
    assert!(rt; d.known() == 256);
}

// They have left in the order of the peers, and the time was told.
fn all_have_left(rt: &impl Abort, post: &mut Post, house: u8) {
    for n in 0..256 {
        let k = member(255 - n, u64::from(house));
        comes(rt, post, Next::Silent(k));
    }
    comes(rt, post, Next::Tick);
    comes(rt, post, Next::Nothing);
}

// All of the house fall silent in one entry.
fn all_fall_silent(rt: &impl Abort, d: &mut Directory, post: &mut Post, house: u8, at: u64)
    requires nothing_asked { d.old.asked ≡ None }
    requires places { d.old.setup.places ≡ 256 }
    ensures nothing_asked { d.new.asked ≡ None }
    ensures places { d.new.setup.places ≡ 256 }
{
    assert!(rt; !d.has_ended());
    assert!(rt; post.is_empty());
    let verdict = d.hear(256, &Heard::Quiet { at }, post);
    assert!(rt; matches!(verdict, LinkVerdict::Timed));
    all_have_left(rt, post, house);
    assert!(rt; d.known() == 0);
}

// Their leaving was reported, from this place on.
fn all_are_noted(d: &mut Directory, house: u8, from: u32)
    ensures asked { d.new.asked ≡ d.old.asked }
    ensures setup { d.new.setup ≡ d.old.setup }
{
    for place in from..256 {
        d.noted(member(place, u64::from(house)));
    }
}

#[test]
fn a_full_table_leaves_at_once_and_fills_again(rt: HostRuntime) {
    let (mut d, mut post) = start(&rt, rt.alloc());
    all_join(&rt, &mut d, &mut post, 1, 0);
    asks(&rt, &mut d, &mut post, 256, &peer(1, 256), 0);
    is_turned_away(&rt, &mut d, &mut post);
    assert!(&rt; d.known() == 256);
    all_fall_silent(&rt, &mut d, &mut post, 1, 30_000);
    // One of them asks again, and waits until its leaving was reported.
    asks(&rt, &mut d, &mut post, 257, &peer(1, 0), 30_000);
    assert!(&rt; d.waits());
    d.noted(member(255, 1));
    joins(&rt, &mut d, &mut post, member(255, 2));
    all_are_noted(&mut d, 1, 0);
    all_fall_silent_but_one(&rt, &mut d, &mut post, 60_000);
    d.noted(member(255, 2));
    all_join(&rt, &mut d, &mut post, 1, 60_000);
}

// The one that is left falls silent.
fn all_fall_silent_but_one(rt: &impl Abort, d: &mut Directory, post: &mut Post, at: u64)
    requires nothing_asked { d.old.asked ≡ None }
    requires places { d.old.setup.places ≡ 256 }
    ensures nothing_asked { d.new.asked ≡ None }
    ensures places { d.new.setup.places ≡ 256 }
{
    assert!(rt; !d.has_ended());
    assert!(rt; post.is_empty());
    let verdict = d.hear(258, &Heard::Quiet { at }, post);
    assert!(rt; matches!(verdict, LinkVerdict::Timed));
    comes(rt, post, Next::Silent(member(255, 2)));
    comes(rt, post, Next::Tick);
    comes(rt, post, Next::Nothing);
}

#[test]
fn a_request_waits_where_known_and_departing_are_512(rt: HostRuntime) {
    let (mut d, mut post) = start(&rt, rt.alloc());
    all_join(&rt, &mut d, &mut post, 1, 0);
    all_fall_silent(&rt, &mut d, &mut post, 1, 30_000);
    all_join(&rt, &mut d, &mut post, 2, 30_000);
    asks(&rt, &mut d, &mut post, 257, &peer(3, 0), 30_000);
    assert!(&rt; d.waits());
    // Another member of the same place is passed over.
    d.noted(member(7, 3));
    assert!(&rt; d.waits());
    d.noted(member(7, 1));
    is_turned_away(&rt, &mut d, &mut post);
    all_are_noted(&mut d, 1, 0);
    all_fall_silent(&rt, &mut d, &mut post, 2, 60_000);
}
