//! The sender's turns: the door, and then the queues, each once.
ghost use Rattle.std.specs.Prelude.{◌≡◌, ◌<◌, ℕ, List, [], false, vec_len};
ghost use Rattle.m17_sender.specs.Ready.{IsShaped};
ghost use Rattle.m17_sender.specs.Places.{cells_of};
ghost use Rattle.m17_sender.specs.SoFar.{at_rest, GoesOn, IsIdle, RestsAt, with_reply};

use crate::Sender;
use crate::kept::Kept;
use crate::queue::Tried;
use crate::saying::say_reply;
use m17_control::Direct;
use m17_ports::Mouth;
use m17_values::Member;
use std::sync::Wait;

/// How many replies the door holds.
const DOOR_CAPACITY: u32 = 256;

impl<M: Mouth> Sender<M> {
    /// A turn: what the door holds, and at most one item of each queue that may have something. Says whether anything
    /// was popped or said.
    pub(crate) fn turn<R: Wait>(&mut self, rt: &R, kept: &mut Kept) -> bool
        requires shaped { IsShaped self.old }
        ensures goes_on { GoesOn M.told
            (at_rest self.old kept.old.noted) (at_rest self.new kept.new.noted) }
    {
        let answered = self.pass_door(rt);
        let said = self.pass_marked(rt, kept);
        answered || said
    }

    /// A turn over all queues. Says whether anything was popped or said; where not, each Hello that is held back waits.
    pub(crate) fn whole_turn<R: Wait>(&mut self, rt: &R, kept: &mut Kept) -> bool
        requires shaped { IsShaped self.old }
        ensures goes_on { GoesOn M.told
            (at_rest self.old kept.old.noted) (at_rest self.new kept.new.noted) }
        ensures vain { result ≡ false
            → (m q : ℕ) → RestsAt self.new kept.new.noted m q }
    {
        let answered = self.pass_door(rt);
        let said = self.pass_all(rt, kept);
        answered || said
    }

    // Says what the door holds.
    fn pass_door<R: Wait>(&mut self, rt: &R) -> bool
        requires shaped { IsShaped self.old }
        ensures goes_on { (noted : List ℕ)
            → GoesOn M.told
            (at_rest self.old noted) (at_rest self.new noted) }
    {
        for taken in 0..DOOR_CAPACITY {
            if !self.take_reply(rt) {
                return taken > 0;
            }
        }
        true
    }

    // Pops a reply of the door and says it, or passes it over. Says whether there was one.
    fn take_reply<R: Wait>(&mut self, rt: &R) -> bool
        requires shaped { IsShaped self.old }
        ensures goes_on { (noted : List ℕ)
            → GoesOn M.told
            (at_rest self.old noted) (at_rest self.new noted) }
    {
        // models/turns.pml: reply-taken
        match self.door.try_pop(rt) {
            Some(reply) => {
                self.answer(&reply);
                true
            }
            None => false,
        }
    }

    // The turns of the queues that may have something.
    fn pass_marked<R: Wait>(&mut self, rt: &R, kept: &mut Kept) -> bool
        requires shaped { IsShaped self.old }
        ensures goes_on { GoesOn M.told
            (at_rest self.old kept.old.noted) (at_rest self.new kept.new.noted) }
    {
        let mut did = false;
        let mut from = 0;
        for _tried in 0..u32::MAX {
            // models/turns.pml: queue-found
            let Some(number) = self.hint.next(from) else {
                return did;
            };
            if self.try_number(rt, kept, number) {
                did = true;
            }
            from = number.saturating_add(1);
        }
        did
    }

    // The turn of the queue with this number, counted module by module; one that is not there has nothing.
    fn try_number<R: Wait>(&mut self, rt: &R, kept: &mut Kept, number: u32) -> bool
        requires shaped { IsShaped self.old }
        ensures goes_on { GoesOn M.told
            (at_rest self.old kept.old.noted) (at_rest self.new kept.new.noted) }
    {
        match self.try_there(rt, kept, number) {
            Tried::Did => true,
            Tried::Waiting => false,
            Tried::Empty => {
                // models/turns.pml: queue-cleared
                self.hint.clear(number);
                false
            }
        }
    }

    fn try_there<R: Wait>(&mut self, rt: &R, kept: &mut Kept, number: u32) -> Tried
        requires shaped { IsShaped self.old }
        ensures goes_on { GoesOn M.told
            (at_rest self.old kept.old.noted) (at_rest self.new kept.new.noted) }
    {
        if self.places == 0 {
            return Tried::Empty;
        }
        let row = (number / self.places) as usize;
        let at = (number % self.places) as usize;
        if row < self.queues.len() {
            self.try_queue(rt, kept, row, at)
        } else {
            Tried::Empty
        }
    }

    // The turns of all queues.
    fn pass_all<R: Wait>(&mut self, rt: &R, kept: &mut Kept) -> bool
        requires shaped { IsShaped self.old }
        ensures goes_on { GoesOn M.told
            (at_rest self.old kept.old.noted) (at_rest self.new kept.new.noted) }
        ensures vain { result ≡ false
            → (m q : ℕ) → RestsAt self.new kept.new.noted m q }
    {
        let mut did = false;
        for row in 0..self.queues.len() {
            if self.pass_row(rt, kept, row) {
                did = true;
            }
        }
        did
    }

    // The turns of the queues of one module.
    fn pass_row<R: Wait>(&mut self, rt: &R, kept: &mut Kept, row: usize) -> bool
        requires shaped { IsShaped self.old }
        requires row { row < vec_len self.old.queues }
        ensures goes_on { GoesOn M.told
            (at_rest self.old kept.old.noted) (at_rest self.new kept.new.noted) }
        ensures vain { result ≡ false → IsIdle self.old self.new kept.old.noted kept.new.noted
            × ((q : ℕ) → q < self.old.places → RestsAt self.new kept.new.noted row q) }
    {
        let mut did = false;
        for at in 0..self.places {
            // models/turns.pml: queue-tried
            if self.try_queue(rt, kept, row, at as usize).did() {
                did = true;
            }
        }
        did
    }

    // Says a reply of the door, or passes it over.
    fn answer(&mut self, reply: &Direct)
        requires shaped { IsShaped self.old }
        ensures goes_on { (noted : List ℕ)
            → GoesOn M.told
            (with_reply self.old noted reply.now) (at_rest self.new noted) }
    {
        m17_lane::rows_laws::rows_push::<Member>();
        m17_ports::laws::mouths_say_in_turn::<M::Label>();
        crate::laws::turns_grow();
        crate::laws::spelled_part_by_part();
        if (reply.link as usize) < self.mouths.len() {
            say_reply(&mut self.mouths, reply);
        }
    }
}
