//! Receivers without their devices.
ghost use Rattle.std.specs.Prelude.{◌≡◌, ◌+◌, ◌<◌, ◌≤◌, ◌++◌, ◌∷◌, [], IfOk, map, vec_len};
ghost use Rattle.m17_plan.specs.Planned.{IsPlan};
ghost use Rattle.m17_reflect.specs.Bare.{bare, EachFrom, IsNewReceiver};
ghost use Rattle.m17_reflect.specs.Taken.{AreFromLinks, AreTakenFromLinks, HaveLinks};

use crate::vectors::{empty_cells, room, take_last};
use m17_control::{Direct, Event};
use m17_crew::Order;
use m17_directory::{Directory, Post};
use m17_lane::{Popper, Pusher};
use m17_plan::Plan;
use m17_receiver::Receiver;
use m17_roll::RollSeat;
use m17_values::{Member, NoMemory};
use std::alloc::Global;

/// What the receivers get of the lanes, by link.
#[derive(Drop)]
pub(crate) struct LinkEnds {
    pub(crate) inboxes: Vec<Vec<Pusher<Event>>>,
    pub(crate) doors: Vec<Pusher<Direct>>,
    pub(crate) notes: Vec<Popper<Member>>,
    pub(crate) orders: Vec<Popper<Order>>,
}

/// The receivers of all links, in order, with the last seats of these.
pub(crate) fn bare_receivers(
    alloc: Global,
    plan: &Plan,
    links: u32,
    ends: LinkEnds,
    seats: &mut Vec<RollSeat>,
) -> Result<Vec<Receiver<(), ()>>, NoMemory>
    requires plan { IsPlan plan.now }
    requires links { links ≤ 4 }
    requires ends { HaveLinks links ends }
    requires seats { links ≤ vec_len seats.old }
    ensures new { IfOk result (λ js. EachFrom (IsNewReceiver plan.now) 0 (map bare js.items)) }
    ensures count { IfOk result (λ js. vec_len js ≡ links) }
    ensures ends { IfOk result (λ js. AreFromLinks ends js.items) }
    ensures seats { IfOk result (λ js.
        seats.old.items ≡ seats.new.items ++ map (λ j. j.seat) js.items) }
{
    let mut ends = ends;
    let mut made = room(alloc, links)?;
    for done in 0..links {
        let link = links - 1 - done;
        let receiver = bare_receiver(alloc, plan, link, &mut ends, seats)?;
        made.push_reserved(receiver);
    }
    made.reverse();
    Ok(made)
}

// The receiver of the last link that is left.
fn bare_receiver(
    alloc: Global,
    plan: &Plan,
    link: u32,
    ends: &mut LinkEnds,
    seats: &mut Vec<RollSeat>,
) -> Result<Receiver<(), ()>, NoMemory>
    requires plan { IsPlan plan.now }
    requires link { link < 4 }
    requires ends { HaveLinks (link + 1) ends.old }
    requires seats { 0 < vec_len seats.old }
    ensures new { IfOk result (λ j. IsNewReceiver plan.now link (bare j)) }
    ensures fewer { IfOk result (λ _. HaveLinks link ends.new) }
    ensures taken { IfOk result (λ j. AreTakenFromLinks ends.old ends.new (j ∷ [])) }
    ensures seat { IfOk result (λ j. (seats.old.items ≡ seats.new.items ++ j.seat ∷ [])
        × (vec_len seats.new + 1 ≡ vec_len seats.old)) }
{
    let number = link as u8;
    let directory = Directory::make(alloc, number, plan.name, plan.places, plan.modules)?;
    let post = Post::make(alloc)?;
    let tape = empty_cells(alloc, plan.entries)?;
    Ok(Receiver {
        link: number,
        modules: plan.modules,
        places: plan.places,
        patient: plan.patient,
        ear: (),
        trace: (),
        directory,
        post,
        inboxes: take_last(&mut ends.inboxes),
        door: take_last(&mut ends.doors),
        notes: take_last(&mut ends.notes),
        order: take_last(&mut ends.orders),
        seat: take_last(seats),
        tape,
        lost: false,
        trace_failed: false,
    })
}
