//! One queue in its turn: at most one of its items is popped and said, passed over or held back.
ghost use Rattle.std.specs.Prelude.{◌≡◌, ◌<◌, ◌≤◌, ℕ, List, [], slice_index, true, false, vec_len};
ghost use Rattle.std.specs.Option.{IfNone};
ghost use Rattle.m17_control.specs.declared.item.Said.TheVariants.{Hello};
ghost use Rattle.m17_lane.specs.Rows.{push_each};
ghost use Rattle.m17_sender.specs.Ready.{IsShaped};
ghost use Rattle.m17_sender.specs.Places.{cells_of, held_at, is_said, queues_of};
ghost use Rattle.m17_sender.specs.Sent.{bye_on};
ghost use Rattle.m17_sender.specs.SoFar.{at_rest, GoesOn, IsHeldBack, IsIdle, IsNoted, is_did, OnVain, RestsAt, with_item};

use crate::Sender;
use crate::cells::{cell_at, empty_cell, fill_cell};
use crate::kept::{Kept, LINKS};
use crate::saying::say_kept;
use m17_control::{Item, Said};
use m17_lane::{Pusher, pop_in, push_at};
use m17_ports::Mouth;
use m17_values::Member;
use std::sync::Wait;

/// How a queue's turn went.
#[derive(Clone, Copy, Debug, PartialEq, Eq)]
pub(crate) enum Tried {
    /// An item was popped or said.
    Did,
    /// Its Hello is still held back.
    Waiting,
    /// It was empty.
    Empty,
}

impl Tried {
    /// Whether an item was popped or said.
    pub(crate) fn did(self) -> bool
        ensures { result ≡ is_did self }
    {
        matches!(self, Tried::Did)
    }
}

impl<M: Mouth> Sender<M> {
    /// The turn of queue `at` of module `row`.
    pub(crate) fn try_queue<R: Wait>(
        &mut self,
        rt: &R,
        kept: &mut Kept,
        row: usize,
        at: usize,
    ) -> Tried
        requires shaped { IsShaped self.old }
        requires row { row < vec_len self.old.queues }
        requires at { at < self.old.places }
        ensures goes_on { GoesOn M.told
            (at_rest self.old kept.old.noted) (at_rest self.new kept.new.noted) }
        ensures vain { OnVain result (IsIdle self.old self.new kept.old.noted kept.new.noted
            × RestsAt self.new kept.new.noted row at) }
    {
        // models/turns.pml: hello-waits
        if self.is_held_up(&kept.noted, row, at) {
            return Tried::Waiting;
        }
        let next = self.next(rt, row, at);
        match &next {
            Some(item) => {
                self.take(rt, kept, row, at, item);
                Tried::Did
            }
            None => Tried::Empty,
        }
    }

    // Whether a Hello is held back in a queue, and waits on.
    fn is_held_up(&self, noted: &[u64; LINKS], row: usize, at: usize) -> bool
        requires shaped { IsShaped self.now }
        requires row { row < vec_len self.now.queues }
        requires at { at < self.now.places }
        ensures { result ≡ true → RestsAt self.now noted.now row at }
    {
        match cell_at(&self.held, row, at) {
            Some(held) => waits(held, noted),
            None => false,
        }
    }

    // The next item of a queue: the one that is held back, or else the oldest in its lane.
    fn next<R: Wait>(&mut self, rt: &R, row: usize, at: usize) -> Option<Item>
        requires shaped { IsShaped self.old }
        requires row { row < vec_len self.old.queues }
        requires at { at < self.old.places }
        ensures goes_on { (noted : List ℕ)
            → GoesOn M.told (at_rest self.old noted)
            (with_item self.new noted row at result) }
        ensures free { held_at (cells_of self.new) row at ≡ [] }
        ensures none { IfNone result (cells_of self.new ≡ cells_of self.old) }
    {
        m17_lane::rows_laws::grids_pop::<Item>();
        m17_lane::rows_laws::rows_pop::<Item>();
        if let Some(held) = cell_at(&self.held, row, at) {
            let item = *held;
            // models/turns.pml: held-taken
            empty_cell(&mut self.held, row, at);
            return Some(item);
        }
        // models/turns.pml: item-popped
        pop_in(rt, &mut self.queues, row, at)
    }

    // Says an item that was taken out of a queue, or holds it back there, or passes it over.
    fn take<R: Wait>(&mut self, rt: &R, kept: &mut Kept, row: usize, at: usize, item: &Item)
        requires shaped { IsShaped self.old }
        requires row { row < vec_len self.old.queues }
        requires at { at < self.old.places }
        requires free { held_at (cells_of self.old) row at ≡ [] }
        ensures goes_on { GoesOn M.told
            (with_item self.old kept.old.noted row at (Some item.now))
            (at_rest self.new kept.new.noted) }
    {
        if !self.is_said(item) {
            return;
        }
        if waits(item, &kept.noted) {
            // models/turns.pml: hello-held
            fill_cell(&mut self.held, row, at, *item);
        } else {
            self.say(rt, kept, item);
        }
    }

    // Says an item, and notes a Bye to its link.
    fn say<R: Wait>(&mut self, rt: &R, kept: &mut Kept, item: &Item)
        requires shaped { IsShaped self.old }
        requires there { is_said self.old item.now ≡ true }
        requires link { item.now.link < 256 }
        requires in_turn { (after : ℕ) → item.now.body ≡ Hello after
            → after ≤ slice_index kept.old.noted item.now.link }
        ensures goes_on { (m q : ℕ) → held_at (cells_of self.old) m q ≡ []
            → GoesOn M.told
            (with_item self.old kept.old.noted m q (Some item.now))
            (at_rest self.new kept.new.noted) }
    {
        m17_lane::rows_laws::rows_push::<Member>();
        m17_ports::laws::mouths_say_in_turn::<M::Label>();
        crate::laws::turns_grow();
        crate::laws::spelled_part_by_part();
        // models/turns.pml: item-said
        say_kept(&mut self.mouths, self.name, item, &mut kept.last);
        note(rt, &mut self.notes, &mut kept.noted, item);
    }

    // Whether an item is said: any other is passed over.
    fn is_said(&self, item: &Item) -> bool
        ensures there { result ≡ is_said self.now item.now }
        ensures link { item.now.link < 256 }
    {
        (item.link as usize) < self.mouths.len() && item.member.place < self.places
    }
}

// Whether an item is a Hello that waits for more notes to its link than were pushed.
fn waits(item: &Item, noted: &[u64; LINKS]) -> bool
    ensures held { result ≡ true → IsHeldBack noted.now item.now }
    ensures in_turn { result ≡ false → (after : ℕ) → item.now.body ≡ Hello after
        → after ≤ slice_index noted.now item.now.link }
{
    match item.body {
        Said::Hello { after } => noted[item.link as usize] < after,
        _ => false,
    }
}

// Notes a Bye that was said, to the link's receiver, and counts it; the count stays at its greatest.
fn note<R: Wait>(rt: &R, notes: &mut Vec<Pusher<Member>>, noted: &mut [u64; LINKS], item: &Item)
    requires { item.now.link < vec_len notes.old }
    ensures notes { notes.new.items ≡ push_each (λ i. bye_on i item.now) 0 notes.old.items }
    ensures noted { IsNoted item.now noted.old noted.new }
{
    m17_lane::rows_laws::rows_push::<Member>();
    if let Said::Bye { .. } = item.body {
        let link = item.link as usize;
        // models/turns.pml: note-pushed
        push_at(rt, notes, link, item.member);
        // models/turns.pml: note-counted
        noted[link] = noted[link].saturating_add(1);
    }
}
