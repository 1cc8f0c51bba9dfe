//! The jobs of a run when they have come back.
ghost use Rattle.std.specs.Prelude.{vec_len};
ghost use Rattle.m17_reflect.specs.Groups.{staff};
ghost use Rattle.m17_reflect.specs.Parted.{CanPart, HasRoom, IsParted};

use crate::parted::{Parted, part_links, part_modules, part_sender};
use crate::{Rooms, Staffed};
use m17_lane::finish_row;
use m17_ports::{Book, Ear, Mouth};

// Takes the jobs apart; their devices come back into these vectors, and the lanes of their orders are finished.
pub(crate) fn part<
    E: Ear + Drop + Send + 'static,
    M: Mouth + Drop + Send + 'static,
    B: Book + Drop + Send + 'static,
>(staffed: Staffed<E, M, B>, ears: Vec<E>, traces: Vec<B>, books: Vec<B>) -> Parted<E, M, B>
    requires jobs { CanPart (staff staffed.receivers.jobs.items staffed.receivers.orders.items)
        (staff staffed.workers.jobs.items staffed.workers.orders.items)
        (staff staffed.senders.jobs.items staffed.senders.orders.items) }
    requires room { HasRoom (vec_len staffed.receivers.jobs) (vec_len staffed.workers.jobs)
        staffed.rooms ears traces books }
    ensures { IsParted (staff staffed.receivers.jobs.items staffed.receivers.orders.items)
        (staff staffed.workers.jobs.items staffed.workers.orders.items)
        (staff staffed.senders.jobs.items staffed.senders.orders.items)
        staffed.rooms.trails result }
{
    let Staffed {
        mut receivers,
        mut workers,
        mut senders,
        rooms,
    } = staffed;
    let Rooms {
        links,
        modules,
        of_sender,
        mut seats,
        mut trails,
    } = rooms;
    let mut links = part_links(receivers.jobs, ears, traces, &mut seats, links);
    let mut modules = part_modules(workers.jobs, books, &mut seats, modules);
    let (voice, mut said) = part_sender(senders.jobs, of_sender);
    let told = &mut receivers.orders;
    finish_row(told, &mut links.orders, &mut trails.to_receivers);
    let told = &mut workers.orders;
    finish_row(told, &mut modules.orders, &mut trails.to_workers);
    finish_row(&mut senders.orders, &mut said, &mut trails.to_sender);
    Parted {
        links,
        modules,
        voice,
        seats,
        trails,
    }
}
