//! All lanes of a run.
ghost use Rattle.std.specs.Prelude.{◌≡◌, ◌+◌, ◌*◌, ◌^◌, ◌<◌, ◌∷◌, [], IfOk, map};
ghost use Rattle.m17_lane.specs.Ends.{new_popper, new_pushers};
ghost use Rattle.m17_reflect.specs.Ends.{AreLaid, AreNewLines, IsNewLine};
ghost use Rattle.m17_reflect.specs.Lanes.{ends_in, AreOrdered};
ghost use Rattle.m17_reflect.specs.Taken.{HaveLinks, HaveModules};

use crate::bare_receivers::LinkEnds;
use crate::bare_sender::SenderEnds;
use crate::bare_workers::ModuleEnds;
use crate::lines::{Lines, lay_line, lay_marked_line, lay_marked_lines};
use crate::vectors::take_last;
use m17_control::{Direct, Event, Item};
use m17_crew::Order;
use m17_lane::{Laid, MarkedBell, Popper, Pusher, lay};
use m17_sender::Hint;
use m17_values::NoMemory;
use std::alloc::Global;

/// The most events that wait in a module's inbox.
const INBOX_ROOM: u32 = 256;

/// The most items that wait in the queue of a place.
const QUEUE_ROOM: u32 = 64;

/// The most replies that wait at the door.
const DOOR_ROOM: u32 = 256;

/// The most members that wait in the notes of a link.
const NOTES_ROOM: u32 = 512;

/// The most orders that wait for a job: one to begin, and one to end.
const ORDERS_ROOM: u32 = 2;

/// All lanes of a run: what the jobs get of them, and what is kept beside the jobs.
#[derive(Drop)]
pub(crate) struct Lanes {
    pub(crate) links: LinkEnds,
    pub(crate) modules: ModuleEnds,
    pub(crate) sender: SenderEnds,
    pub(crate) orders: OrderEnds,
}

/// The ends of the jobs' orders.
#[derive(Drop)]
pub(crate) struct OrderEnds {
    pub(crate) to_receivers: Vec<Pusher<Order>>,
    pub(crate) to_workers: Vec<Pusher<Order>>,
    pub(crate) to_sender: Vec<Pusher<Order>>,
}

// The lanes that ring the sender's bell, each with a mark of its own, and where the sender looks for their items.
#[derive(Drop)]
struct SenderLanes {
    queues: Lines<Item>,
    doors: Vec<Pusher<Direct>>,
    door: Popper<Direct>,
    orders: Vec<Pusher<Order>>,
    order: Popper<Order>,
    hint: Hint,
}

/// Makes all lanes.
pub(crate) fn lay_lanes(
    alloc: Global,
    links: u32,
    modules: u32,
    places: u32,
) -> Result<Lanes, NoMemory>
    requires links { 0 < links }
    requires fits { modules * places + 2 < 2 ^ 32 }
    ensures laid { IfOk result (λ lanes. AreLaid links modules places (ends_in lanes)) }
    ensures orders { IfOk result AreOrdered }
    ensures links { IfOk result (λ lanes. HaveLinks links lanes.links) }
    ensures modules { IfOk result (λ lanes. HaveModules modules lanes.modules) }
{
    let Laid {
        columns,
        poppers,
        shells: _,
    } = lay(alloc, links, modules, INBOX_ROOM)?;
    let to_sender = lay_sender_lanes(alloc, links, modules, places)?;
    let notes = lay_line(alloc, links, NOTES_ROOM)?;
    let to_receivers = lay_line(alloc, links, ORDERS_ROOM)?;
    let to_workers = lay_line(alloc, modules, ORDERS_ROOM)?;
    Ok(Lanes {
        links: LinkEnds {
            inboxes: columns,
            doors: to_sender.doors,
            notes: notes.poppers,
            orders: to_receivers.poppers,
        },
        modules: ModuleEnds {
            inboxes: poppers,
            queues: to_sender.queues.pushers,
            orders: to_workers.poppers,
        },
        sender: SenderEnds {
            queues: to_sender.queues.poppers,
            door: to_sender.door,
            notes: notes.pushers,
            order: to_sender.order,
            hint: to_sender.hint,
        },
        orders: OrderEnds {
            to_receivers: to_receivers.pushers,
            to_workers: to_workers.pushers,
            to_sender: to_sender.orders,
        },
    })
}

// Makes the lanes that ring the sender's bell. Queue q of module m has the mark m * places + q, and behind these come
// the marks of the door and of the orders: each lane has one of its own.
fn lay_sender_lanes(
    alloc: Global,
    links: u32,
    modules: u32,
    places: u32,
) -> Result<SenderLanes, NoMemory>
    requires links { 0 < links }
    requires fits { modules * places + 2 < 2 ^ 32 }
    ensures queues { IfOk result (λ lanes. AreNewLines 64 modules places
        (map (λ row. row.items) lanes.queues.pushers.items)
        (map (λ row. row.items) lanes.queues.poppers.items)) }
    ensures door { IfOk result (λ lanes. (lanes.door ≡ new_popper lanes.door.lane 256 links)
        × (lanes.doors.items ≡ new_pushers lanes.door links)) }
    ensures orders { IfOk result (λ lanes. IsNewLine 2 lanes.orders.items (lanes.order ∷ [])) }
{
    let marks = modules * places;
    let mut bell = MarkedBell::make(alloc, marks + 2)?;
    let queues = lay_marked_lines(alloc, &mut bell, modules, places, QUEUE_ROOM)?;
    let (doors, door) = bell.lay(alloc, marks, links, DOOR_ROOM)?;
    let mut orders = lay_marked_line(alloc, &mut bell, marks + 1, 1, ORDERS_ROOM)?;
    let order = take_last(&mut orders.poppers);
    let hint = Hint::make(alloc, bell.into_bell(), marks)?;
    Ok(SenderLanes {
        queues,
        doors,
        door,
        orders: orders.pushers,
        order,
        hint,
    })
}
