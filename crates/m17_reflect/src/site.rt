//! All that a run needs but its devices.
ghost use Rattle.std.specs.Prelude.{◌≡◌, ◌<◌, ◌≤◌, [], ◌∷◌, IfOk, map};
ghost use Rattle.m17_plan.specs.Planned.{IsPlan};
ghost use Rattle.m17_reflect.specs.Bare.{bare, bare_worker};
ghost use Rattle.m17_reflect.specs.Lanes.{ends_in, AreOrdered};
ghost use Rattle.m17_reflect.specs.Ends.{AreLaid};
ghost use Rattle.m17_plan.specs.Planned.{module_count};
ghost use Rattle.m17_reflect.specs.Rooms.{HasRooms};
ghost use Rattle.m17_reflect.specs.Site.{AreBare, AreOrdersOf, IsSite, IsVacant};
ghost use Rattle.m17_reflect.specs.Taken.{HaveLinks, HaveModules};

use crate::Group;
use crate::bare_receivers::bare_receivers;
use crate::bare_sender::bare_sender;
use crate::bare_workers::bare_workers;
use crate::lanes::{Lanes, OrderEnds, lay_lanes};
use crate::letters::served_letters;
use crate::rooms::{Rooms, make_rooms};
use crate::vectors::room;
use m17_crew::Work;
use m17_plan::Plan;
use m17_ports::{Book, Ear, Mouth};
use m17_receiver::Receiver;
use m17_sender::Sender;
use m17_values::NoMemory;
use m17_worker::Worker;
use std::alloc::Global;

/// All that a run needs but its devices: the jobs without them, and where they come when they have them.
#[derive(Drop)]
pub struct Site<
    E: Ear + Drop + Send + 'static,
    M: Mouth + Drop + Send + 'static,
    B: Book + Drop + Send + 'static,
> {
    /// The plan.
    pub plan: Plan,
    /// The receivers, by link.
    pub receivers: Vec<Receiver<(), ()>>,
    /// The workers, by module.
    pub workers: Vec<Worker<()>>,
    /// The sender.
    pub sender: Sender<()>,
    /// Where the jobs come.
    pub staffed: Staffed<E, M, B>,
}

/// The jobs of a run, ready to be launched, and the rooms for what comes back of it.
#[derive(Drop)]
pub struct Staffed<
    E: Ear + Drop + Send + 'static,
    M: Mouth + Drop + Send + 'static,
    B: Book + Drop + Send + 'static,
> {
    /// The receivers, by link.
    pub receivers: Group<Receiver<E, B>>,
    /// The workers, by module.
    pub workers: Group<Worker<B>>,
    /// The one sender.
    pub senders: Group<Sender<M>>,
    /// The rooms.
    pub rooms: Rooms,
}

// The jobs of a run without their devices, and the ends of their orders.
#[derive(Drop)]
struct Bare {
    receivers: Vec<Receiver<(), ()>>,
    workers: Vec<Worker<()>>,
    sender: Sender<()>,
    orders: OrderEnds,
}

/// Makes all that a run of the plan over `links` links needs but its devices. `NoMemory` where there is none for it;
/// nothing else is refused.
pub fn prepare<
    E: Ear + Drop + Send + 'static,
    M: Mouth + Drop + Send + 'static,
    B: Book + Drop + Send + 'static,
>(alloc: Global, plan: &Plan, links: u32) -> Result<Site<E, M, B>, NoMemory>
    requires plan { IsPlan plan.now }
    requires links { (0 < links) × (links ≤ 4) }
    ensures plan { IfOk result (λ site. site.plan ≡ plan.now) }
    ensures site { IfOk result (IsSite links) }
{
    let modules = plan.modules.count();
    let mut staffed = vacant_staff(alloc, links, modules, plan.places)?;
    let lanes = lay_lanes(alloc, links, modules, plan.places)?;
    let bare = make_bare(alloc, plan, links, lanes)?;
    staffed.receivers.orders = bare.orders.to_receivers;
    staffed.workers.orders = bare.orders.to_workers;
    staffed.senders.orders = bare.orders.to_sender;
    Ok(Site {
        plan: *plan,
        receivers: bare.receivers,
        workers: bare.workers,
        sender: bare.sender,
        staffed,
    })
}

// Groups without jobs and orders, with room for those of a run, and the rooms. It is made before the lanes and the jobs, so that
// little is there where memory runs out.
fn vacant_staff<
    E: Ear + Drop + Send + 'static,
    M: Mouth + Drop + Send + 'static,
    B: Book + Drop + Send + 'static,
>(alloc: Global, links: u32, modules: u32, places: u32) -> Result<Staffed<E, M, B>, NoMemory>
    requires links { links ≤ 4 }
    requires modules { modules ≤ 26 }
    ensures receivers { IfOk result (λ s. IsVacant links s.receivers.jobs s.receivers.running) }
    ensures workers { IfOk result (λ s. IsVacant modules s.workers.jobs s.workers.running) }
    ensures sender { IfOk result (λ s. IsVacant 1 s.senders.jobs s.senders.running) }
    ensures rooms { IfOk result (λ s. HasRooms links modules places s.rooms) }
{
    let rooms = make_rooms(alloc, links, modules, places)?;
    let receivers = vacant(alloc, links)?;
    let workers = vacant(alloc, modules)?;
    let senders = vacant(alloc, 1)?;
    Ok(Staffed {
        receivers,
        workers,
        senders,
        rooms,
    })
}

// A group without jobs and orders, with room for `count` jobs.
fn vacant<W: Work>(alloc: Global, count: u32) -> Result<Group<W>, NoMemory>
    ensures { IfOk result (λ group. IsVacant count group.jobs group.running) }
{
    let jobs = room(alloc, count)?;
    let running = room(alloc, count)?;
    Ok(Group {
        jobs,
        orders: Vec::new(alloc),
        running,
    })
}

// The jobs of these lanes.
fn make_bare(alloc: Global, plan: &Plan, links: u32, lanes: Lanes) -> Result<Bare, NoMemory>
    requires plan { IsPlan plan.now }
    requires links { (0 < links) × (links ≤ 4) }
    requires laid { AreLaid links (module_count plan.now) plan.now.places (ends_in lanes) }
    requires orders { AreOrdered lanes }
    requires links_have { HaveLinks links lanes.links }
    requires modules_have { HaveModules (module_count plan.now) lanes.modules }
    ensures bare { IfOk result (λ b. AreBare plan.now links (map bare b.receivers.items)
        (map bare_worker b.workers.items) b.sender) }
    ensures to_receivers { IfOk result (λ b. AreOrdersOf (λ j. j.order)
        b.orders.to_receivers.items (map bare b.receivers.items)) }
    ensures to_workers { IfOk result (λ b. AreOrdersOf (λ w. w.order)
        b.orders.to_workers.items (map bare_worker b.workers.items)) }
    ensures to_sender { IfOk result (λ b. AreOrdersOf (λ s. s.order)
        b.orders.to_sender.items (b.sender ∷ [])) }
{
    let letters = served_letters(alloc, plan.modules)?;
    let mut seats = m17_roll::make(alloc, plan.places, links + plan.modules.count())?;
    let workers = bare_workers(alloc, plan, links, letters, lanes.modules, &mut seats)?;
    let receivers = bare_receivers(alloc, plan, links, lanes.links, &mut seats)?;
    let sender = bare_sender(alloc, plan, lanes.sender)?;
    Ok(Bare {
        receivers,
        workers,
        sender,
        orders: lanes.orders,
    })
}
