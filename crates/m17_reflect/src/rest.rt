//! What is left to be said when all jobs have ended: in the door, held back, and in the queues.
ghost use Rattle.std.specs.Prelude.{◌≡◌, ℕ, ◌∷◌, [], ◌++◌, length, map, Some};
ghost use Rattle.m17_sender.specs.Places.{held_in};
ghost use Rattle.m17_reflect.specs.Left.{left, drained};
ghost use Rattle.m17_reflect.specs.Rest.{SaysRest};
ghost use Rattle.m17_reflect.specs.Saying.{SaysItems, SaysReplies, SaysRow, SaysRows};

use m17_callsign::CallAddress;
use m17_control::{Direct, Item};
use m17_lane::Trail;
use m17_ports::Mouth;
use m17_sender::{say_item, say_reply};
use std::sync::Wait;

/// Says what the sender had not said when it ended: what is left in the door, and then queue by queue, those of a
/// module by place, the item that is held back there, if one is, and what is left in the queue. `held` has a row for
/// each module and in it a cell for each queue. What names a link that is not there is passed over, and a datagram that
/// a mouth fails to say is lost, and nothing else. Nothing is noted.
pub fn say_rest<M: Mouth, R: Wait>(
    rt: &R,
    name: CallAddress,
    mouths: &mut Vec<M>,
    door: &mut Trail<Direct>,
    held: &Vec<Vec<Option<Item>>>,
    queues: &mut Vec<Vec<Trail<Item>>>,
)
    requires cells { map (λ row. length row.items) held.now.items
        ≡ map (λ row. length row.items) queues.old.items }
    ensures said { SaysRest M.told name (record {
      cells = map (λ row. row.items) held.now.items;
      queues = map (λ row. row.items) queues.old.items;
      door = door.old;
    }) mouths.old.items mouths.new.items }
    ensures door { door.new ≡ drained door.old }
    ensures queues { map (λ row. row.items) queues.new.items
        ≡ map (map drained) (map (λ row. row.items) queues.old.items) }
{
    m17_ports::laws::mouths_say_in_turn::<M::Label>();
    m17_sender::laws::spelled_part_by_part();
    say_door(rt, mouths, door);
    say_rows(rt, name, mouths, held, queues);
}

// Says what is left in the door.
fn say_door<M: Mouth, R: Wait>(rt: &R, mouths: &mut Vec<M>, door: &mut Trail<Direct>)
    ensures said { SaysReplies M.told (left door.old)
        mouths.old.items mouths.new.items }
    ensures drained { door.new ≡ drained door.old }
{
    m17_ports::laws::mouths_say_in_turn::<M::Label>();
    m17_sender::laws::spelled_part_by_part();
    while let Some(reply) = door.left(rt) {
        answer(mouths, &reply);
    }
}

// Says a reply, or passes it over.
fn answer<M: Mouth>(mouths: &mut Vec<M>, reply: &Direct)
    ensures { SaysReplies M.told (reply.now ∷ [])
        mouths.old.items mouths.new.items }
{
    m17_ports::laws::mouths_say_in_turn::<M::Label>();
    if (reply.link as usize) < mouths.len() {
        say_reply(mouths, reply);
    }
}

// Says the rest of all queues.
fn say_rows<M: Mouth, R: Wait>(
    rt: &R,
    name: CallAddress,
    mouths: &mut Vec<M>,
    held: &Vec<Vec<Option<Item>>>,
    queues: &mut Vec<Vec<Trail<Item>>>,
)
    requires cells { map (λ row. length row.items) held.now.items
        ≡ map (λ row. length row.items) queues.old.items }
    ensures said { SaysRows M.told name
        (length queues.old.items) (map (λ row. row.items) held.now.items)
        (map (λ row. row.items) queues.old.items) mouths.old.items mouths.new.items }
    ensures drained { map (λ row. row.items) queues.new.items
        ≡ map (map drained) (map (λ row. row.items) queues.old.items) }
{
    m17_ports::laws::mouths_say_in_turn::<M::Label>();
    m17_sender::laws::spelled_part_by_part();
    for row in 0..queues.len() {
        say_row(rt, name, mouths, &held[row], &mut queues[row]);
    }
}

// Says the rest of the queues of one module.
fn say_row<M: Mouth, R: Wait>(
    rt: &R,
    name: CallAddress,
    mouths: &mut Vec<M>,
    held: &Vec<Option<Item>>,
    queues: &mut Vec<Trail<Item>>,
)
    requires cells { length held.now.items ≡ length queues.old.items }
    ensures said { (m : ℕ) → SaysRow M.told name m
        (length queues.old.items) held.now.items queues.old.items
        mouths.old.items mouths.new.items }
    ensures drained { queues.new.items ≡ map drained queues.old.items }
{
    m17_ports::laws::mouths_say_in_turn::<M::Label>();
    m17_sender::laws::spelled_part_by_part();
    for at in 0..queues.len() {
        say_queue(rt, name, mouths, held[at], &mut queues[at]);
    }
}

// Says the rest of one queue: what is held back there, and what is left.
fn say_queue<M: Mouth, R: Wait>(
    rt: &R,
    name: CallAddress,
    mouths: &mut Vec<M>,
    held: Option<Item>,
    queue: &mut Trail<Item>,
)
    ensures said { SaysItems M.told name
        (held_in (Some held) ++ left queue.old) mouths.old.items mouths.new.items }
    ensures drained { queue.new ≡ drained queue.old }
{
    m17_ports::laws::mouths_say_in_turn::<M::Label>();
    m17_sender::laws::spelled_part_by_part();
    say_held(mouths, name, held);
    say_left(rt, name, mouths, queue);
}

// Says what is held back.
fn say_held<M: Mouth>(mouths: &mut Vec<M>, name: CallAddress, held: Option<Item>)
    ensures { SaysItems M.told name
        (held_in (Some held)) mouths.old.items mouths.new.items }
{
    m17_ports::laws::mouths_say_in_turn::<M::Label>();
    match held {
        Some(item) => say(mouths, name, &item),
        None => {}
    }
}

// Says what is left in a queue.
fn say_left<M: Mouth, R: Wait>(
    rt: &R,
    name: CallAddress,
    mouths: &mut Vec<M>,
    queue: &mut Trail<Item>,
)
    ensures said { SaysItems M.told name (left queue.old)
        mouths.old.items mouths.new.items }
    ensures drained { queue.new ≡ drained queue.old }
{
    m17_ports::laws::mouths_say_in_turn::<M::Label>();
    m17_sender::laws::spelled_part_by_part();
    while let Some(item) = queue.left(rt) {
        say(mouths, name, &item);
    }
}

// Says an item, or passes it over.
fn say<M: Mouth>(mouths: &mut Vec<M>, name: CallAddress, item: &Item)
    ensures { SaysItems M.told name (item.now ∷ [])
        mouths.old.items mouths.new.items }
{
    m17_ports::laws::mouths_say_in_turn::<M::Label>();
    if (item.link as usize) < mouths.len() {
        say_item(mouths, name, item);
    }
}
