//! Workers without their books.
ghost use Rattle.std.specs.Prelude.{◌≡◌, ◌+◌, ◌<◌, ◌≤◌, ◌++◌, ◌∷◌, [], All, IfOk, map, vec_len};
ghost use Rattle.m17_control.specs.Forms.{IsModule};
ghost use Rattle.m17_control.specs.Modules.{letters_of};
ghost use Rattle.m17_plan.specs.Planned.{IsPlan};
ghost use Rattle.m17_reflect.specs.Bare.{bare_worker, IsNewWorker};
ghost use Rattle.m17_plan.specs.Planned.{module_count};
ghost use Rattle.m17_reflect.specs.Taken.{AreFromModules, AreTakenFromModules, HaveModules};

use crate::vectors::{room, take_last};
use m17_control::{Event, Item};
use m17_crew::Order;
use m17_lane::{Popper, Pusher};
use m17_module::{Basket, Module};
use m17_plan::Plan;
use m17_roll::RollSeat;
use m17_tape::Tape;
use m17_values::NoMemory;
use m17_worker::{LaneOffers, Worker};
use std::alloc::Global;

/// What the workers get of the lanes, by module.
#[derive(Drop)]
pub(crate) struct ModuleEnds {
    pub(crate) inboxes: Vec<Popper<Event>>,
    pub(crate) queues: Vec<Vec<Pusher<Item>>>,
    pub(crate) orders: Vec<Popper<Order>>,
}

/// The workers of the modules with these letters, in order, with the last seats of these.
pub(crate) fn bare_workers(
    alloc: Global,
    plan: &Plan,
    links: u32,
    letters: Vec<u8>,
    ends: ModuleEnds,
    seats: &mut Vec<RollSeat>,
) -> Result<Vec<Worker<()>>, NoMemory>
    requires plan { IsPlan plan.now }
    requires letters { letters.items ≡ letters_of plan.now.modules }
    requires each { All IsModule letters.items }
    requires ends { HaveModules (module_count plan.now) ends }
    requires seats { module_count plan.now ≤ vec_len seats.old }
    ensures new { IfOk result (λ ws. All (IsNewWorker plan.now links) (map bare_worker ws.items)) }
    ensures letters { IfOk result (λ ws. map (λ w. w.letter) ws.items ≡ letters.items) }
    ensures ends { IfOk result (λ ws. AreFromModules ends ws.items) }
    ensures seats { IfOk result (λ ws.
        seats.old.items ≡ seats.new.items ++ map (λ w. w.seat) ws.items) }
{
    let (mut letters, mut ends) = (letters, ends);
    let modules = plan.modules.count();
    let mut made = room(alloc, modules)?;
    for _made in 0..modules {
        let worker = bare_worker(alloc, plan, links, &mut letters, &mut ends, seats)?;
        made.push_reserved(worker);
    }
    made.reverse();
    Ok(made)
}

// The worker of the last module that is left.
fn bare_worker(
    alloc: Global,
    plan: &Plan,
    links: u32,
    letters: &mut Vec<u8>,
    ends: &mut ModuleEnds,
    seats: &mut Vec<RollSeat>,
) -> Result<Worker<()>, NoMemory>
    requires plan { IsPlan plan.now }
    requires some { 0 < vec_len letters.old }
    requires letters { All IsModule letters.old.items }
    requires ends { HaveModules (vec_len letters.old) ends.old }
    requires seats { 0 < vec_len seats.old }
    ensures new { IfOk result (λ w. IsNewWorker plan.now links (bare_worker w)) }
    ensures letter { IfOk result (λ w. letters.old.items ≡ letters.new.items ++ w.letter ∷ []) }
    ensures fewer { IfOk result (λ _. HaveModules (vec_len letters.new) ends.new
        × (vec_len letters.new + 1 ≡ vec_len letters.old)) }
    ensures taken { IfOk result (λ w. AreTakenFromModules ends.old ends.new (w ∷ [])) }
    ensures seat { IfOk result (λ w. (seats.old.items ≡ seats.new.items ++ w.seat ∷ [])
        × (vec_len seats.new + 1 ≡ vec_len seats.old)) }
{
    let basket = Basket::make(alloc)?;
    let tape = Tape::make(alloc, plan.entries)?;
    let letter = take_last(letters);
    let module = Module::make(alloc, plan.places, plan.parrots.has(letter), plan.limit)?;
    Ok(Worker {
        letter,
        links,
        limit: plan.limit,
        module,
        basket,
        book: (),
        inbox: take_last(&mut ends.inboxes),
        offers: LaneOffers {
            queues: take_last(&mut ends.queues),
            patient: plan.patient,
            missed: 0,
        },
        order: take_last(&mut ends.orders),
        seat: take_last(seats),
        tape,
        book_failed: false,
    })
}
