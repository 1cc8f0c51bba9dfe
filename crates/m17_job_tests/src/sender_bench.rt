//! A sender for tests, with the other ends of its lanes, and what is pushed there.
ghost use Rattle.std.specs.Prelude.{◌≡◌, ◌<◌, ◌∷◌, [], None};
ghost use Rattle.m17_lane.specs.Ends.{new_popper};
ghost use Rattle.m17_sender.specs.Ready.{IsReady};

use crate::bench::must;
use m17_callsign::{Address, CallAddress};
use m17_control::{Control, Direct, Item, Said, Why};
use m17_crew::{Order, Work};
use m17_lane::{Bell, Popper, Pusher, make_one, make_one_marked};
use m17_ports::Mouth;
use m17_sender::{Hint, Sender};
use m17_values::{Member, Peer};
use std::alloc::Global;
use std::process::Abort;
use std::sync::Wait;

// A sender of one link and of one module with three places, and the other ends of its lanes.
#[derive(Drop)]
pub(crate) struct Laid<M> {
    pub(crate) sender: Sender<M>,
    pub(crate) far: Far,
}

#[derive(Drop)]
pub(crate) struct Far {
    pub(crate) first: Pusher<Item>,
    pub(crate) second: Pusher<Item>,
    pub(crate) third: Pusher<Item>,
    pub(crate) door: Pusher<Direct>,
    pub(crate) orders: Pusher<Order>,
    pub(crate) notes: Popper<Member>,
}

fn one<T: Drop, R: Abort>(rt: &R, alloc: Global, a: T) -> Vec<T>
    ensures { result.items ≡ a ∷ [] }
{
    let mut all = must(rt, Vec::with_capacity(alloc, 1));
    all.push_reserved(a);
    all
}

fn three<T: Drop, R: Abort>(rt: &R, alloc: Global, a: T, b: T, c: T) -> Vec<T>
    ensures { result.items ≡ a ∷ b ∷ c ∷ [] }
{
    let mut all = must(rt, Vec::with_capacity(alloc, 3));
    all.push_reserved(a);
    all.push_reserved(b);
    all.push_reserved(c);
    all
}

// Such a sender with this mouth, whose notes hold so many members and whose door so many replies.
pub(crate) fn lay<M: Mouth + Drop, R: Abort>(
    rt: &R,
    alloc: Global,
    mouth: M,
    notes: u32,
    door: u32,
) -> Laid<M>
    requires { (0 < notes) × (0 < door) }
    ensures { IsReady result.sender }
{
    let bell = must(rt, Bell::make_marked(alloc, 5));
    let (first, from_first) = must(rt, make_one_marked(alloc, &bell, 0, 64));
    let (second, from_second) = must(rt, make_one_marked(alloc, &bell, 1, 64));
    let (third, from_third) = must(rt, make_one_marked(alloc, &bell, 2, 64));
    let (door, from_door) = must(rt, make_one_marked(alloc, &bell, 3, door));
    let (orders, order) = must(rt, make_one_marked(alloc, &bell, 4, 2));
    let (to_notes, notes) = must(rt, make_one(alloc, notes));
    let queues = three(rt, alloc, from_first, from_second, from_third);
    let sender = Sender {
        name: callsign(rt),
        mouths: one(rt, alloc, mouth),
        queues: one(rt, alloc, queues),
        door: from_door,
        notes: one(rt, alloc, to_notes),
        held: one(rt, alloc, three(rt, alloc, None, None, None)),
        order,
        places: 3,
        hint: must(rt, Hint::make(alloc, bell, 3)),
    };
    let far = Far {
        first,
        second,
        third,
        door,
        orders,
        notes,
    };
    Laid { sender, far }
}

// Let a sender go, and the other ends.
pub(crate) fn let_sender_go<M: Drop>(_sender: Sender<M>) {}

pub(crate) fn let_far_go(_far: Far) {}

// Does a job, by what a job is.
pub(crate) fn done<W: Work, R: Wait>(rt: &R, job: W) -> W
    requires ready { W.ready job }
    ensures done { W.does job result }
{
    let mut job = job;
    job.go(rt);
    job
}

pub(crate) fn peer(port: u16) -> Peer {
    Peer {
        six: false,
        ip: [0; 16],
        port,
    }
}

// Something for the member at a place, whose peer has the place as its port.
pub(crate) fn item(place: u32, link: u8, body: Said) -> Item {
    Item {
        member: Member {
            place,
            generation: 0,
        },
        link,
        peer: peer((place % 100) as u16),
        body,
    }
}

pub(crate) fn ping(place: u32) -> Item {
    item(place, 0, Said::Ping)
}

pub(crate) fn answer(place: u32) -> Item {
    let control = Control::Nack;
    item(place, 0, Said::Reply { control })
}

pub(crate) fn bye(place: u32, link: u8) -> Item {
    item(place, link, Said::Bye { why: Why::Asked })
}

pub(crate) fn hello(place: u32, link: u8, after: u64) -> Item {
    item(place, link, Said::Hello { after })
}

pub(crate) fn reply(link: u8, port: u16) -> Direct {
    Direct {
        link,
        peer: peer(port),
        control: Control::Nack,
    }
}

// Five items for the member at a place, of which the first is a PING.
pub(crate) fn push_five<R: Wait>(rt: &R, end: &mut Pusher<Item>, place: u32) {
    end.push_waiting(rt, ping(place));
    for _answered in 0..4 {
        end.push_waiting(rt, answer(place));
    }
}

fn callsign(rt: &impl Abort) -> CallAddress {
    let address = Address::new(0x13_89f9_baed).expect(rt, "an address");
    CallAddress::new(address).expect(rt, "a callsign")
}
