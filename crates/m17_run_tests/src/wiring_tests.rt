//! What no clause says of a site: that it is made where there is memory, and that what is pushed at one job comes out at
//! the job that is to have it.

use crate::bench::{must, pair_of_books, plan, three_books, two_ears, two_mouths};
use m17_control::{Body, Event, Item, Said, Tag};
use m17_crew::Order;
use m17_port_memory::{ListBook, ListMouth, ScriptEar};
use m17_receiver::Receiver;
use m17_reflect::{Staffed, prepare, staff};
use m17_sender::Sender;
use m17_values::{Member, Peer};
use m17_worker::Worker;
use std::alloc::Global;
use std::process::Abort;
use std::sync::Wait;

type Site = Staffed<ScriptEar, ListMouth, ListBook>;

// A run of two links, three modules and four places, ready to be launched.
fn ready<R: Abort>(rt: &R, alloc: Global) -> Site {
    let plan = plan(rt, "ABD", 4);
    let site = must(rt, prepare(alloc, &plan, 2));
    let first = ScriptEar::new(Vec::new(alloc));
    let mut ears = two_ears(rt, alloc, first, ScriptEar::new(Vec::new(alloc)));
    let mouths = two_mouths(rt, alloc, 0);
    let mut traces = pair_of_books(rt, alloc, 0);
    let mut books = three_books(rt, alloc, 0);
    let modules = site.plan.modules.count();
    assert!(rt; books.len() == modules as usize);
    staff(site, &mut ears, mouths, &mut traces, &mut books)
}

fn event(link: u8, index: u64) -> Event {
    Event {
        tag: Tag { link, index },
        at: 0,
        body: Body::Stop,
    }
}

fn item(place: u32, generation: u64) -> Item {
    Item {
        member: Member { place, generation },
        link: 0,
        peer: Peer {
            six: false,
            ip: [0; 16],
            port: 17_000,
        },
        body: Said::Hello { after: 0 },
    }
}

// The receiver pushes an event at each module.
fn push_events<R: Wait>(rt: &R, receiver: &mut Receiver<ScriptEar, ListBook>) {
    let link = receiver.link;
    for (module, end) in receiver.inboxes.iter_mut().enumerate() {
        end.push_waiting(rt, event(link, module as u64));
    }
}

// Three events of a worker's inbox.
fn next_events<R: Wait>(rt: &R, worker: &mut Worker<ListBook>) -> [Option<Event>; 3] {
    [
        worker.inbox.try_pop(rt),
        worker.inbox.try_pop(rt),
        worker.inbox.try_pop(rt),
    ]
}

// Each worker's inbox has one event of each link, for its module.
fn expect_events<R: Abort + Wait>(rt: &R, run: &mut Site) {
    assert!(rt; run.workers.jobs.len() == 3);
    for (module, worker) in run.workers.jobs.iter_mut().enumerate() {
        let index = module as u64;
        let wanted = [Some(event(0, index)), Some(event(1, index)), None];
        assert!(rt; next_events(rt, worker) == wanted, "module {module}");
    }
}

#[test]
fn events_come_to_their_module_from_each_link(rt: HostRuntime) {
    let mut run = ready(&rt, rt.alloc());
    for receiver in run.receivers.jobs.iter_mut() {
        push_events(&rt, receiver);
    }
    expect_events(&rt, &mut run);
    drop(run);
}

// The worker of this module pushes an item for each place.
fn push_items<R: Wait>(rt: &R, module: usize, worker: &mut Worker<ListBook>) {
    let mut place = 0;
    for end in worker.offers.queues.iter_mut() {
        end.push_waiting(rt, item(place, module as u64));
        place = place.saturating_add(1);
    }
}

// The sender has a queue of each module for each of the four places, with the item for this place.
fn expect_items<R: Abort + Wait>(rt: &R, sender: &mut Sender<ListMouth>) {
    assert!(rt; sender.queues.len() == 3 && sender.held.len() == 3);
    for (module, row) in sender.queues.iter_mut().enumerate() {
        assert!(rt; row.len() == 4);
        let mut place = 0;
        for head in row.iter_mut() {
            let wanted = Some(item(place, module as u64));
            assert!(rt;
                head.try_pop(rt) == wanted,
                "place {place} of module {module}"
            );
            place = place.saturating_add(1);
        }
    }
}

#[test]
fn items_come_to_the_queue_of_their_place(rt: HostRuntime) {
    let mut run = ready(&rt, rt.alloc());
    for (module, worker) in run.workers.jobs.iter_mut().enumerate() {
        push_items(&rt, module, worker);
    }
    assert!(rt; run.senders.jobs.len() == 1);
    for sender in run.senders.jobs.iter_mut() {
        expect_items(&rt, sender);
    }
    drop(run);
}

// The sender notes for each link a member with the link's number as its place.
fn push_notes<R: Wait>(rt: &R, sender: &mut Sender<ListMouth>) {
    let mut place = 0;
    for end in sender.notes.iter_mut() {
        let generation = 0;
        end.push_waiting(rt, Member { place, generation });
        place = place.saturating_add(1);
    }
}

// The orders of the two links.
const ORDERS: [Order; 2] = [Order::Go, Order::Quit];

// Each link's receiver has its note and its order.
fn expect_notes_and_orders<R: Abort + Wait>(rt: &R, run: &mut Site) {
    assert!(rt; run.receivers.jobs.len() == 2);
    for (receiver, order) in run.receivers.jobs.iter_mut().zip(ORDERS) {
        let place = u32::from(receiver.link);
        let generation = 0;
        let noted = receiver.notes.try_pop(rt);
        assert!(rt; noted == Some(Member { place, generation }));
        assert!(rt; receiver.order.try_pop(rt) == Some(order));
    }
}

#[test]
fn notes_and_orders_come_to_their_link(rt: HostRuntime) {
    let mut run = ready(&rt, rt.alloc());
    assert!(rt; run.senders.jobs.len() == 1 && run.receivers.orders.len() == 2);
    for sender in run.senders.jobs.iter_mut() {
        push_notes(&rt, sender);
    }
    for (end, order) in run.receivers.orders.iter_mut().zip(ORDERS) {
        end.push_waiting(&rt, order);
    }
    expect_notes_and_orders(&rt, &mut run);
    drop(run);
}
