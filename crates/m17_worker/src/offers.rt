//! The queues of a module's places, and what they are offered.
ghost use Rattle.std.specs.Prelude.{◌≡◌, ◌<◌, ◌≤◌, ◌∷◌, [], false, length, slice_get, vec_capacity, vec_len, IsSomeAnd};
ghost use Rattle.m17_lane.specs.Rows.{grow_each, only, push_each};
ghost use Rattle.m17_worker.specs.Offers.{AreTried, IsQueue, may_be_missed, missed_for, queued_for, try_of};

use m17_control::{Item, Said};
use m17_lane::{Pusher, push_at, push_unrung_at, try_push_at};
use std::sync::Wait;

/// What became of an item that was offered.
#[derive(Clone, Copy, Debug, PartialEq, Eq)]
pub enum Offered {
    /// The queue of its place took it.
    Queued,
    /// It was left out: the queue was full.
    Missed,
}

/// Where a module's items go: a queue for each of its places.
#[derive(Drop)]
pub struct LaneOffers {
    /// The ends of the queues, in order of places.
    pub queues: Vec<Pusher<Item>>,
    /// Whether every item waits for room, so that none is left out. Then the consumer is woken when all events that had come
    /// are served, and else behind each.
    pub patient: bool,
    /// How many items were left out; the count stays at 2^64 - 1.
    pub missed: u64,
}

impl LaneOffers {
    /// Offers the item to the queue of its place, of which there has to be one: a lane of one producer that holds 64
    /// items. `Missed` comes only once that queue has taken 64 items, for a Frame, an Echo or a Ping and where the offers
    /// aren't patient, and is counted; it comes at once, where the queue has no room. All else is `Queued`, and waits,
    /// asleep, while the queue is full: for ever, where nobody empties it. A Frame, an Echo or a Ping wakes nobody: see
    /// `rouse`. The other queues are as they were.
    pub fn offer<R: Wait>(&mut self, rt: &R, item: Item) -> Offered
        requires queue { IsSomeAnd (slice_get self.old.queues.items item.member.place) IsQueue }
        ensures tried { AreTried (try_of item result ∷ []) self.old self.new }
    {
        let waits = self.patient || !is_missable(&item.body);
        let answer = put(rt, &mut self.queues, item, waits);
        if answer == Offered::Missed {
            self.missed = self.missed.saturating_add(1);
        }
        answer
    }
}

impl LaneOffers {
    /// Wakes the consumer of the queues, which are to share a bell: an offer of a Frame, an Echo or a Ping wakes nobody but
    /// where it has to wait for room.
    pub fn rouse(&self) {
        if let Some(queue) = self.queues.first() {
            queue.rouse();
        }
    }
}

// Pushes the item to the queue of its place, and waits there for room, or else leaves it out where the queue is full.
fn put<R: Wait>(rt: &R, queues: &mut Vec<Pusher<Item>>, item: Item, waits: bool) -> Offered
    requires queue { IsSomeAnd (slice_get queues.old.items item.member.place) IsQueue }
    ensures queues { queues.new.items ≡ grow_each (queued_for (try_of item result ∷ []))
        (missed_for (try_of item result ∷ [])) 0 queues.old.items }
    ensures missed { result ≡ Offered.Missed → waits ≡ false }
    ensures full { result ≡ Offered.Missed →
        IsSomeAnd (slice_get queues.old.items item.member.place) (λ q. 64 ≤ length q.pushed) }
    ensures room { vec_capacity queues.new ≡ vec_capacity queues.old }
{
    m17_lane::rows_laws::rows_grow::<Item>();
    let at = item.member.place as usize;
    if waits {
        push(rt, queues, at, item);
        return Offered::Queued;
    }
    // models/dozes.pml: pushed-if-room
    match try_push_at(rt, queues, at, item) {
        Ok(()) => Offered::Queued,
        Err(_) => Offered::Missed,
    }
}

// Pushes the item to this queue, and waits there for room. It wakes the sender at once for what is never left out.
fn push<R: Wait>(rt: &R, queues: &mut Vec<Pusher<Item>>, at: usize, item: Item)
    requires { at < vec_len queues.old }
    ensures row { queues.new.items ≡ push_each (only at item) 0 queues.old.items }
    ensures room { vec_capacity queues.new ≡ vec_capacity queues.old }
{
    if is_missable(&item.body) {
        // models/dozes.pml: pushed-unrung
        push_unrung_at(rt, queues, at, item);
    } else {
        // models/dozes.pml: rung-item
        push_at(rt, queues, at, item);
    }
}

// Whether this is left out where its queue is full.
fn is_missable(what: &Said) -> bool
    ensures { result ≡ may_be_missed what.now }
{
    matches!(what, Said::Frame { .. } | Said::Echo { .. } | Said::Ping)
}
