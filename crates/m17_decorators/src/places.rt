ghost use Rattle.std.specs.Prelude.{◌≡◌, ◌<◌, ◌≤◌, ℕ, ◌∷◌, List, [], length, IfOk, IfSome, IfNone, true, false};
ghost use Rattle.m17_values.specs.declared.peer.Peer.{Peer};
ghost use Rattle.m17_decorators.specs.PaceMemory.{Admits, AreFresh, Hold, holds, is_idle, once_stamped, place_at, with_renewed, with_stamp};

use crate::place::Place;
use m17_values::{NoMemory, Peer};
use std::alloc::Global;

// Places for peers, each with its own; and where the next frame's peer is looked for first: behind
// the one before, since a talk goes to its listeners in turn.
#[derive(Drop)]
pub(crate) struct Places {
    pub(crate) list: Vec<Place>,
    pub(crate) hint: usize,
}

impl Places {
    // Places for so many peers, of nobody, each with room for so many frames.
    pub(crate) fn make(alloc: Global, count: usize, most: usize) -> Result<Places, NoMemory>
        ensures count { IfOk result (λ places. length places.list.items ≡ count) }
        ensures fresh { IfOk result (λ places. AreFresh most places.list.items) }
    {
        let mut list = Vec::new(alloc);
        'fill: while list.len() < count {
            list.push(Place::make(alloc, most)?)?;
        }
        Ok(Places { list, hint: 0 })
    }

    // Whether one more frame to this peer passes, where `now` is the latest moment, and frames count
    // that passed after the moment `cut` was told. If so, it is remembered.
    pub(crate) fn admit(&mut self, to: &Peer, now: u64, cut: u64, most: usize) -> bool
        requires { 0 < most }
        ensures admits { (all : Peer → List ℕ) → Hold most cut now all self.old.list.items
            → Admits most cut now all to.now (length self.old.list.items) result }
        ensures holds { (all : Peer → List ℕ) → Hold most cut now all self.old.list.items
            → result ≡ true → Hold most cut now (once_stamped all to.now now) self.new.list.items }
        ensures same { result ≡ false → self.new ≡ self.old }
        ensures count { length self.new.list.items ≡ length self.old.list.items }
    {
        match self.find(to) {
            Some(place) => {
                if self.list[place].is_spent(cut) {
                    return false;
                }
                self.stamp_at(place, now);
                true
            }
            None => match self.find_idle(cut) {
                Some(place) => {
                    self.renew_at(place, to, now);
                    true
                }
                None => false,
            },
        }
    }

    // Whether so many frames to this peer passed since this moment, the latest one, was told.
    pub(crate) fn has_passed(&self, to: &Peer, count: usize, now: u64) -> bool {
        match self.find(to) {
            Some(place) => self.list[place].has_passed(count, now),
            None => count == 0,
        }
    }

    // A frame passed to the peer of this place.
    fn stamp_at(&mut self, place: usize, now: u64)
        requires { place < length self.old.list.items }
        ensures { self.new.list.items ≡ with_stamp self.old.list.items place now }
    {
        self.list[place].stamp(now);
        self.hint = place + 1;
    }

    // This place is this peer's from now on, and a frame to it passed.
    fn renew_at(&mut self, place: usize, to: &Peer, now: u64)
        requires { place < length self.old.list.items }
        ensures { self.new.list.items ≡ with_renewed self.old.list.items place to.now now }
    {
        self.list[place].renew(to, now);
        self.hint = place + 1;
    }

    // The place of this peer, if it has one.
    fn find(&self, to: &Peer) -> Option<usize>
        ensures some { IfSome result (λ i. (i < length self.now.list.items)
            × (holds to.now (place_at self.now.list.items i).peer ≡ true)) }
        ensures none { IfNone result ((i : ℕ) → i < length self.now.list.items
            → holds to.now (place_at self.now.list.items i).peer ≡ false) }
    {
        if self.is_at(self.hint, to) {
            return Some(self.hint);
        }
        let mut place = 0;
        'look: while place < self.list.len() {
            if self.list[place].is_of(to) {
                return Some(place);
            }
            place += 1;
        }
        None
    }

    // Whether there is such a place, and it is this peer's.
    fn is_at(&self, place: usize, to: &Peer) -> bool
        ensures { result ≡ true → (place < length self.now.list.items)
            × (holds to.now (place_at self.now.list.items place).peer ≡ true) }
    {
        match self.list.get(place) {
            Some(found) => found.is_of(to),
            None => false,
        }
    }

    // A place at which no frame counts, if there is one.
    fn find_idle(&self, cut: u64) -> Option<usize>
        ensures some { IfSome result (λ i. (i < length self.now.list.items)
            × (is_idle cut (place_at self.now.list.items i) ≡ true)) }
        ensures none { IfNone result ((i : ℕ) → i < length self.now.list.items
            → is_idle cut (place_at self.now.list.items i) ≡ false) }
    {
        let mut place = 0;
        'look: while place < self.list.len() {
            if self.list[place].is_idle(cut) {
                return Some(place);
            }
            place += 1;
        }
        None
    }
}
