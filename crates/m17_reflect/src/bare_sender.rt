//! The sender without its mouths.
ghost use Rattle.std.specs.Prelude.{◌≡◌, IfOk};
ghost use Rattle.m17_reflect.specs.Bare.{IsNewSender};
ghost use Rattle.m17_plan.specs.Planned.{module_count};
ghost use Rattle.m17_reflect.specs.Taken.{HasSenderEnds};

use crate::vectors::empty_rows;
use m17_control::{Direct, Item};
use m17_crew::Order;
use m17_lane::{Popper, Pusher};
use m17_plan::Plan;
use m17_sender::{Hint, Sender};
use m17_values::{Member, NoMemory};
use std::alloc::Global;

/// What the sender gets of the lanes, and where it looks.
#[derive(Drop)]
pub(crate) struct SenderEnds {
    pub(crate) queues: Vec<Vec<Popper<Item>>>,
    pub(crate) door: Popper<Direct>,
    pub(crate) notes: Vec<Pusher<Member>>,
    pub(crate) order: Popper<Order>,
    pub(crate) hint: Hint,
}

/// The sender.
pub(crate) fn bare_sender(
    alloc: Global,
    plan: &Plan,
    ends: SenderEnds,
) -> Result<Sender<()>, NoMemory>
    ensures new { IfOk result (λ s. IsNewSender plan.now s) }
    ensures ends { IfOk result (λ s. HasSenderEnds ends s) }
{
    let SenderEnds {
        queues,
        door,
        notes,
        order,
        hint,
    } = ends;
    let held = empty_rows(alloc, plan.modules.count(), plan.places)?;
    Ok(Sender {
        name: plan.name,
        mouths: Vec::new(alloc),
        queues,
        door,
        notes,
        held,
        order,
        places: plan.places,
        hint,
    })
}
