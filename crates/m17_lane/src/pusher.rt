//! The end of a lane that pushes.
ghost use Rattle.std.specs.Prelude.{◌≡◌, ◌≤◌, ◌++◌, ◌∷◌, [], length, MatchResult, IfErr};
ghost use Rattle.std.specs.Arc.{arc_value};
ghost use Rattle.crossbeam_queue.specs.Passes.{view as knows, IsPassOf, IsSamePass};
ghost use Rattle.m17_lane.specs.Ends.{pushed_to, refused_by};
ghost use Rattle.m17_lane.specs.Rule.{refuse, IsPusher};

use crate::lane::{Haste, Lane, put, put_or_rest};
use crate::popper::MOST_ROUNDS;
use crate::rule::{Hand, Line, Refusal, Refuse};
use crossbeam_queue::Pass;
use crossbeam_utils::Backoff;
use std::alloc::Global;
use std::marker::{Brand, Model};
use std::sync::{Arc, Wait};

/// One producer's end of a lane. Contracts see the lane, its capacity and number of producers, and which items this end
/// pushed and which it got back, oldest first. It may go to another thread.
#[derive(Drop)]
pub struct Pusher<T> {
    pub(crate) lane: Arc<Lane<T>, Global>,
    pub(crate) pass: Pass<T, Hand<T>>,
}

impl<T> Model for Pusher<T> {
    ghost use Rattle.std.specs.Arc.{arc_value};
    ghost use Rattle.crossbeam_queue.specs.Passes.{view as knows, IsPassOf, ruled_capacity};
    ghost use Rattle.m17_lane.specs.Ends.{PushEnd};
    ghost use Rattle.m17_lane.specs.Rule.{first_number, first_log, first_refused, IsPusher};

    ghost Value = { PushEnd T };

    ghost view = { λ p. record {
      lane = p.pass.table_id;
      capacity = ruled_capacity (arc_value p.lane).line;
      producers = (knows p.pass).producers;
      number = first_number (knows p.pass).logs;
      pushed = first_log (knows p.pass).logs;
      refused = first_refused (knows p.pass).refused;
    } };

    ghost invariant = { λ p. IsPassOf (arc_value p.lane).line p.pass × IsPusher (knows p.pass) };
}

impl<T> Pusher<T> {
    /// Pushes `item` where there is room, and hands it back where the lane is full; it never waits for room. An item
    /// that is handed back counts as refused, and the lane is as it was. In a lane of one producer that happens only
    /// after at least `capacity` pushes.
    pub fn try_push<R: Wait>(&mut self, rt: &R, item: T) -> Result<(), T>
        ensures pushed { MatchResult result (λ _. self.new ≡ pushed_to self.old item)
            (λ back. (back ≡ item) × (self.new ≡ refused_by self.old item)) }
        ensures full { IfErr result (λ _. self.old.producers ≡ 1
            → self.old.capacity ≤ length self.old.pushed) }
    {
        self.try_once(rt, item, Haste::Now)
    }

    /// `try_push` that wakes nobody: a consumer that sleeps is left asleep until it is roused (`rouse`), or another push on a
    /// lane of its bell wakes it. So who pushes to many lanes of one bell wakes their consumer once.
    pub fn try_push_unrung<R: Wait>(&mut self, rt: &R, item: T) -> Result<(), T>
        ensures pushed { MatchResult result (λ _. self.new ≡ pushed_to self.old item)
            (λ back. (back ≡ item) × (self.new ≡ refused_by self.old item)) }
        ensures full { IfErr result (λ _. self.old.producers ≡ 1
            → self.old.capacity ≤ length self.old.pushed) }
    {
        self.try_once(rt, item, Haste::Never)
    }

    /// Pushes `item`, and waits while the lane is full: a short while awake, and then asleep until the consumer has made
    /// room, half of it in a lane of one producer. It returns only once the item is pushed, so a consumer that stops
    /// popping holds it for ever.
    pub fn push_waiting<R: Wait>(&mut self, rt: &R, item: T)
        ensures { self.new ≡ pushed_to self.old item }
    {
        self.push(rt, item, Haste::Now);
    }

    /// `push_waiting` that wakes nobody, as with `try_push_unrung`. Before it sleeps at a full lane it wakes the consumer.
    pub fn push_unrung<R: Wait>(&mut self, rt: &R, item: T)
        ensures { self.new ≡ pushed_to self.old item }
    {
        self.push(rt, item, Haste::Never);
    }

    /// `push_waiting` of an item that can wait: a consumer that dozes (`Popper::pop_dozing`) is left asleep by it while
    /// fewer than `enough` items are in the lane, or fewer than half of what it holds where that is less.
    pub fn push_quietly<R: Wait>(&mut self, rt: &R, item: T, enough: usize)
        ensures { self.new ≡ pushed_to self.old item }
    {
        self.push(rt, item, Haste::Later(enough));
    }

    /// Wakes the consumer where it sleeps, for what was pushed unrung to any lane of its bell. Nothing is pushed. A consumer
    /// that finds nothing sleeps again.
    pub fn rouse(&self) {
        // models/lane.pml: roused
        self.lane.filled.ring();
    }

    // One try, which notes what comes back.
    fn try_once<R: Wait>(&mut self, rt: &R, item: T, haste: Haste) -> Result<(), T>
        ensures pushed { MatchResult result (λ _. self.new ≡ pushed_to self.old item)
            (λ back. (back ≡ item) × (self.new ≡ refused_by self.old item)) }
        ensures full { IfErr result (λ _. self.old.producers ≡ 1
            → self.old.capacity ≤ length self.old.pushed) }
    {
        match self.offer(rt, item, haste) {
            Ok(()) => Ok(()),
            Err(back) => {
                self.note(&back);
                Err(back)
            }
        }
    }

    fn push<R: Wait>(&mut self, rt: &R, item: T, haste: Haste)
        ensures { self.new ≡ pushed_to self.old item }
    {
        let mut item = item;
        let mut awake = MOST_ROUNDS;
        let backoff = Backoff::new();
        for _ in rt.forever() {
            let answer = if awake == 0 {
                self.offer_or_rest(rt, item, haste)
            } else {
                self.offer(rt, item, haste)
            };
            match answer {
                Ok(()) => return,
                Err(back) => item = back,
            }
            awake = awake.saturating_sub(1);
            if awake > 0 {
                backoff.spin();
            }
        }
        unreachable!()
    }

    fn offer<R: Wait>(&mut self, rt: &R, item: T, haste: Haste) -> Result<(), T>
        ensures pushed { MatchResult result (λ _. self.new ≡ pushed_to self.old item)
            (λ back. (back ≡ item) × (self.new ≡ self.old)) }
        ensures full { IfErr result (λ _. self.old.producers ≡ 1
            → self.old.capacity ≤ length self.old.pushed) }
    {
        put(rt, &self.lane, &mut self.pass, item, haste)
    }

    fn offer_or_rest<R: Wait>(&mut self, rt: &R, item: T, haste: Haste) -> Result<(), T>
        ensures { MatchResult result (λ _. self.new ≡ pushed_to self.old item)
            (λ back. (back ≡ item) × (self.new ≡ self.old)) }
    {
        put_or_rest(rt, &self.lane, &mut self.pass, item, haste)
    }

    fn note(&mut self, item: &T)
        ensures { self.new ≡ refused_by self.old item.now }
    {
        note_refused::<T, Brand>(&self.lane.line, &mut self.pass, item);
    }
}

// Puts the item that came back into the pass's view: no item moves, and the queue stays as it is.
fn note_refused<T, K: Refusal<T>>(queue: &Line<T>, pass: &mut Pass<T, Hand<T>>, item: &T)
    requires items { K.items ≡ item.now ∷ [] }
    requires pass { IsPassOf queue.now pass.old }
    requires pusher { IsPusher (knows pass.old) }
    ensures pass { IsSamePass pass.old pass.new }
    ensures noted { knows pass.new ≡ refuse (knows pass.old) (item.now ∷ []) }
{
    let _ = item;
    let _ = queue.another::<Refuse<K>>(pass);
}
