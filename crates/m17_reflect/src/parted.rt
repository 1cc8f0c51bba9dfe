//! What the jobs of a run are made of, taken out of them.
ghost use Rattle.std.specs.Prelude.{◌≡◌, ◌≤◌, ◌+◌, ◌++◌, [], ◌∷◌, map, vec_len, vec_capacity};
ghost use Rattle.m17_sender.specs.declared.sender.Sender.{Sender};
ghost use Rattle.m17_reflect.specs.Rooms.{IsRoom, HasLinkRooms, HasModuleRooms};
ghost use Rattle.m17_reflect.specs.Parted.{AreOfReceivers, AreOfWorkers, IsOfSender};

use crate::{
    LinkRooms, ModuleRooms, ReceiverParts, TrailRooms, WorkerParts, part_receivers, part_workers,
};
use m17_callsign::CallAddress;
use m17_control::{Direct, Item};
use m17_crew::Order;
use m17_lane::{Popper, Pusher};
use m17_receiver::Receiver;
use m17_roll::RollSeat;
use m17_sender::Sender;
use m17_values::Member;
use m17_worker::Worker;

// What the sender is made of.
#[derive(Drop)]
pub(crate) struct Voice<M> {
    pub name: CallAddress,
    pub mouths: Vec<M>,
    pub queues: Vec<Vec<Popper<Item>>>,
    pub door: Popper<Direct>,
    pub notes: Vec<Pusher<Member>>,
    pub held: Vec<Vec<Option<Item>>>,
}

// All that the jobs are made of, and the trails of their orders.
#[derive(Drop)]
pub(crate) struct Parted<E, M, B> {
    pub links: ReceiverParts<E, B>,
    pub modules: WorkerParts<B>,
    pub voice: Voice<M>,
    pub seats: Vec<RollSeat>,
    pub trails: TrailRooms,
}

// Takes the receivers apart.
pub(crate) fn part_links<E: Drop, B: Drop>(
    jobs: Vec<Receiver<E, B>>,
    ears: Vec<E>,
    traces: Vec<B>,
    seats: &mut Vec<RollSeat>,
    rooms: LinkRooms,
) -> ReceiverParts<E, B>
    requires ears { IsRoom (vec_len jobs) ears }
    requires traces { IsRoom (vec_len jobs) traces }
    requires seats { IsRoom (vec_len jobs) seats.old }
    requires rooms { HasLinkRooms (vec_len jobs) rooms }
    ensures parts { AreOfReceivers jobs.items result }
    ensures orders { result.orders.items ≡ map (λ j. j.order) jobs.items }
    ensures seats { seats.new.items ≡ map (λ j. j.seat) jobs.items }
    ensures seat_room { vec_capacity seats.new ≡ vec_capacity seats.old }
{
    let mut jobs = jobs;
    let mut parts = ReceiverParts {
        ears,
        traces,
        columns: rooms.columns,
        doors: rooms.doors,
        noted: rooms.noted,
        orders: rooms.orders,
        tapes: rooms.tapes,
        lost: false,
        failed: false,
    };
    part_receivers(&mut jobs, seats, &mut parts);
    parts
}

// Takes the workers apart, in the same way; their seats come behind these.
pub(crate) fn part_modules<B: Drop>(
    jobs: Vec<Worker<B>>,
    books: Vec<B>,
    seats: &mut Vec<RollSeat>,
    rooms: ModuleRooms,
) -> WorkerParts<B>
    requires books { IsRoom (vec_len jobs) books }
    requires seats { vec_len seats.old + vec_len jobs ≤ vec_capacity seats.old }
    requires rooms { HasModuleRooms (vec_len jobs) rooms }
    ensures parts { AreOfWorkers jobs.items result }
    ensures orders { result.orders.items ≡ map (λ w. w.order) jobs.items }
    ensures seats { seats.new.items ≡ seats.old.items ++ map (λ w. w.seat) jobs.items }
{
    let mut jobs = jobs;
    let mut parts = WorkerParts {
        books,
        inboxes: rooms.inboxes,
        queues: rooms.queues,
        orders: rooms.orders,
        tapes: rooms.tapes,
        missed: rooms.missed,
        admitted: rooms.admitted,
        failed: false,
    };
    part_workers(&mut jobs, seats, &mut parts);
    parts
}

// Takes the one sender apart; the end of its orders stands beside the rest, in its room.
pub(crate) fn part_sender<M: Drop>(
    jobs: Vec<Sender<M>>,
    room: Vec<Popper<Order>>,
) -> (Voice<M>, Vec<Popper<Order>>)
    requires one { (s : Sender M) × (jobs.items ≡ s ∷ []) }
    requires room { IsRoom 1 room }
    ensures parts { (s : Sender M) → jobs.items ≡ s ∷ [] → IsOfSender s result.0 }
    ensures orders { result.1.items ≡ map (λ s. s.order) jobs.items }
{
    let mut jobs = jobs;
    let mut room = room;
    match jobs.pop() {
        Some(sender) => {
            room.push_reserved(sender.order);
            let voice = Voice {
                name: sender.name,
                mouths: sender.mouths,
                queues: sender.queues,
                door: sender.door,
                notes: sender.notes,
                held: sender.held,
            };
            (voice, room)
        }
        None => unreachable!(),
    }
}
