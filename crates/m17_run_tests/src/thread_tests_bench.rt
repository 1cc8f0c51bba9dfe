//! A sender of one link and one module with very many places, and the other ends of its lanes.
ghost use Rattle.std.specs.Prelude.{◌≡◌, ◌∷◌, [], All, None, Ok, length};
ghost use Rattle.m17_lane.specs.Rows.{IsNewPopRow};
ghost use Rattle.m17_sender.specs.Ready.{IsReady};

use m17_callsign::{Address, CallAddress};
use m17_control::{Direct, Item, Said};
use m17_crew::Order;
use m17_lane::{Bell, Popper, Pusher, make_one, make_one_marked};
use m17_ports::Mouth;
use m17_sender::{Hint, Sender};
use m17_values::{Member, Peer};
use std::alloc::Global;
use std::process::Abort;

/// So many places, one queue each: two words of 64 marks more than 64 words.
pub(crate) const QUEUES: u32 = 4_224;

/// A sender, and the other ends of its lanes.
#[derive(Drop)]
pub(crate) struct Laid<M> {
    pub(crate) sender: Sender<M>,
    pub(crate) queues: Vec<Pusher<Item>>,
    pub(crate) door: Pusher<Direct>,
    pub(crate) orders: Pusher<Order>,
    pub(crate) notes: Popper<Member>,
}

/// What was made; the test ends where it was not.
pub(crate) fn must<T, E: Drop, R: Abort>(rt: &R, made: Result<T, E>) -> T
    ensures { made ≡ Ok result }
{
    made.ok().expect(rt, "made")
}

fn one<T: Drop, R: Abort>(rt: &R, alloc: Global, a: T) -> Vec<T>
    ensures { result.items ≡ a ∷ [] }
{
    let mut all = must(rt, Vec::with_capacity(alloc, 1));
    all.push_reserved(a);
    all
}

// The queues: each holds four items, and the mark of queue q is q.
fn lay_queues<R: Abort>(
    rt: &R,
    alloc: Global,
    bell: &Bell,
) -> (Vec<Pusher<Item>>, Vec<Popper<Item>>)
    ensures count { length result.1.items ≡ 4224 }
    ensures new { IsNewPopRow result.1.items }
{
    let mut pushers = Vec::new(alloc);
    let mut poppers = Vec::new(alloc);
    for mark in 0..QUEUES {
        let (pusher, popper) = must(rt, make_one_marked(alloc, bell, mark, 4));
        must(rt, pushers.push(pusher));
        must(rt, poppers.push(popper));
    }
    (pushers, poppers)
}

// A cell for each queue, in which no Hello is held back.
fn empty_cells<R: Abort>(rt: &R, alloc: Global) -> Vec<Option<Item>>
    ensures count { length result.items ≡ 4224 }
    ensures none { All (λ cell. cell ≡ None) result.items }
{
    let mut cells = Vec::new(alloc);
    for _made in 0..QUEUES {
        must(rt, cells.push(None));
    }
    cells
}

/// Such a sender with this mouth. Its door and its orders have the marks behind those of the queues.
pub(crate) fn lay<M: Mouth + Drop, R: Abort>(rt: &R, alloc: Global, mouth: M) -> Laid<M>
    ensures { IsReady result.sender }
{
    let bell = must(rt, Bell::make_marked(alloc, QUEUES + 2));
    let (queues, from_queues) = lay_queues(rt, alloc, &bell);
    let (door, from_door) = must(rt, make_one_marked(alloc, &bell, QUEUES, 1));
    let (orders, order) = must(rt, make_one_marked(alloc, &bell, QUEUES + 1, 2));
    let (to_notes, notes) = must(rt, make_one(alloc, 1));
    let cells = empty_cells(rt, alloc);
    let sender = Sender {
        name: callsign(rt),
        mouths: one(rt, alloc, mouth),
        queues: one(rt, alloc, from_queues),
        door: from_door,
        notes: one(rt, alloc, to_notes),
        held: one(rt, alloc, cells),
        order,
        places: QUEUES,
        hint: must(rt, Hint::make(alloc, bell, QUEUES)),
    };
    Laid {
        sender,
        queues,
        door,
        orders,
        notes,
    }
}

/// A PING to the member at a place.
pub(crate) fn ping(place: u32) -> Item {
    Item {
        member: Member {
            place,
            generation: 0,
        },
        link: 0,
        peer: Peer {
            six: false,
            ip: [10; 16],
            port: 17_000,
        },
        body: Said::Ping,
    }
}

fn callsign(rt: &impl Abort) -> CallAddress {
    let address = Address::new(0x13_89f9_baed).expect(rt, "an address");
    CallAddress::new(address).expect(rt, "a callsign")
}
