//! The rooms for what comes back of a run.
ghost use Rattle.std.specs.Prelude.{◌≤◌, IfOk};
ghost use Rattle.m17_reflect.specs.Rooms.{HasLinkRooms, HasModuleRooms, HasRooms, HasTrailRooms};

use crate::vectors::{room, rooms};
use m17_control::{Direct, Event, Item};
use m17_crew::Order;
use m17_directory::LinkVerdict;
use m17_floor::Verdict;
use m17_lane::{Popper, Pusher, Trail};
use m17_roll::RollSeat;
use m17_tape::Tape;
use m17_values::{Member, NoMemory};
use std::alloc::Global;

/// Empty vectors for all that comes back of a run, each with room, so that nothing is allocated once it has started.
#[derive(Drop)]
pub struct Rooms {
    /// For what the receivers are made of.
    pub links: LinkRooms,
    /// For what the workers are made of.
    pub modules: ModuleRooms,
    /// For the popper of the sender's orders.
    pub of_sender: Vec<Popper<Order>>,
    /// For the seats of the receivers and the workers.
    pub seats: Vec<RollSeat>,
    /// For the trails of all lanes but the door.
    pub trails: TrailRooms,
}

/// Room for what receivers are made of, by link, but for devices and seats.
#[derive(Drop)]
pub struct LinkRooms {
    /// For the pushers of the inboxes.
    pub columns: Vec<Vec<Pusher<Event>>>,
    /// For the pushers of the door.
    pub doors: Vec<Pusher<Direct>>,
    /// For the poppers of the notes.
    pub noted: Vec<Popper<Member>>,
    /// For the poppers of the orders.
    pub orders: Vec<Popper<Order>>,
    /// For the tapes.
    pub tapes: Vec<Vec<Option<LinkVerdict>>>,
}

/// Room for what workers are made of, by module, but for books and seats.
#[derive(Drop)]
pub struct ModuleRooms {
    /// For the poppers of the inboxes.
    pub inboxes: Vec<Popper<Event>>,
    /// For the pushers of the queues.
    pub queues: Vec<Vec<Pusher<Item>>>,
    /// For the poppers of the orders.
    pub orders: Vec<Popper<Order>>,
    /// For the tapes.
    pub tapes: Vec<Tape<Verdict>>,
    /// For the counts of what was left out.
    pub missed: Vec<u64>,
    /// For the counts of what was admitted.
    pub admitted: Vec<u64>,
}

/// Room for the trails of lanes.
#[derive(Drop)]
pub struct TrailRooms {
    /// For each module an empty vector with room for the pushers of its inbox.
    pub shells: Vec<Vec<Pusher<Event>>>,
    /// For the trails of the inboxes, by module.
    pub inboxes: Vec<Trail<Event>>,
    /// For each module an empty vector with room for the trails of its queues.
    pub queues: Vec<Vec<Trail<Item>>>,
    /// For the trails of the notes, by link.
    pub notes: Vec<Trail<Member>>,
    /// For the trails of the receivers' orders.
    pub to_receivers: Vec<Trail<Order>>,
    /// For the trails of the workers' orders.
    pub to_workers: Vec<Trail<Order>>,
    /// For the trail of the sender's orders.
    pub to_sender: Vec<Trail<Order>>,
}

/// Makes all rooms.
pub(crate) fn make_rooms(
    alloc: Global,
    links: u32,
    modules: u32,
    places: u32,
) -> Result<Rooms, NoMemory>
    requires links { links ≤ 4 }
    requires modules { modules ≤ 26 }
    ensures { IfOk result (λ r. HasRooms links modules places r) }
{
    Ok(Rooms {
        trails: trail_rooms(alloc, links, modules, places)?,
        links: link_rooms(alloc, links)?,
        modules: module_rooms(alloc, modules)?,
        of_sender: room(alloc, 1)?,
        seats: room(alloc, links + modules)?,
    })
}

fn link_rooms(alloc: Global, links: u32) -> Result<LinkRooms, NoMemory>
    ensures { IfOk result (λ r. HasLinkRooms links r) }
{
    Ok(LinkRooms {
        columns: room(alloc, links)?,
        doors: room(alloc, links)?,
        noted: room(alloc, links)?,
        orders: room(alloc, links)?,
        tapes: room(alloc, links)?,
    })
}

fn module_rooms(alloc: Global, modules: u32) -> Result<ModuleRooms, NoMemory>
    ensures { IfOk result (λ r. HasModuleRooms modules r) }
{
    Ok(ModuleRooms {
        inboxes: room(alloc, modules)?,
        queues: room(alloc, modules)?,
        orders: room(alloc, modules)?,
        tapes: room(alloc, modules)?,
        missed: room(alloc, modules)?,
        admitted: room(alloc, modules)?,
    })
}

fn trail_rooms(alloc: Global, links: u32, modules: u32, places: u32) -> Result<TrailRooms, NoMemory>
    ensures { IfOk result (λ r. HasTrailRooms links modules places r) }
{
    Ok(TrailRooms {
        shells: rooms(alloc, modules, links)?,
        inboxes: room(alloc, modules)?,
        queues: rooms(alloc, modules, places)?,
        notes: room(alloc, links)?,
        to_receivers: room(alloc, links)?,
        to_workers: room(alloc, modules)?,
        to_sender: room(alloc, 1)?,
    })
}
