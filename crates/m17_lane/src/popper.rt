//! The end of a lane that pops.
ghost use Rattle.std.specs.Prelude.{◌≡◌, MatchOption};
ghost use Rattle.m17_lane.specs.Ends.{popped_from};

use crate::lane::{Lane, Rest, get, get_or_rest};
use crate::rule::Hand;
use crossbeam_queue::Pass;
use crossbeam_utils::Backoff;
use std::alloc::Global;
use std::marker::Model;
use std::sync::{Arc, Wait};

/// For how many rounds a consumer waits awake, at the least and at the most, before it sleeps. In each it pauses twice as long
/// as in the one before, from one step of the processor to 64, and never gives the processor away: beside other work that
/// would cost a slice of time each.
const FEWEST_ROUNDS: u32 = 3;

pub(crate) const MOST_ROUNDS: u32 = 7;

/// The consumer's end of a lane. Contracts see the lane, its capacity and number of producers, and the items that were
/// popped, oldest first. It may go to another thread.
#[derive(Drop)]
pub struct Popper<T> {
    pub(crate) lane: Arc<Lane<T>, Global>,
    pub(crate) pass: Pass<T, Hand<T>>,
    // For how many rounds it waits awake the next time.
    pub(crate) rounds: u32,
}

impl<T> Model for Popper<T> {
    ghost use Rattle.std.specs.Prelude.{◌≡◌, ◌+◌, ◌^◌, ◌<◌, []};
    ghost use Rattle.std.specs.Arc.{arc_value};
    ghost use Rattle.crossbeam_queue.specs.Passes.{view as knows, IsPassOf, ruled_capacity};
    ghost use Rattle.m17_lane.specs.Ends.{PopEnd};
    ghost use Rattle.m17_lane.specs.Rule.{popper};

    ghost Value = { PopEnd T };

    ghost view = { λ p. record {
      lane = p.pass.table_id;
      capacity = ruled_capacity (arc_value p.lane).line;
      producers = (knows p.pass).producers;
      popped = (knows p.pass).got;
    } };

    // All pushers are made, none has come back, and each has one part.
    ghost invariant = { λ p. let v = knows p.pass in
        IsPassOf (arc_value p.lane).line p.pass
        × (v ≡ popper v.parts v.producers v.producers [] v.got v.seen [])
        × (v.parts + v.producers ≡ 2 ^ 32)
        × (0 < v.parts) };
}

impl<T> Popper<T> {
    /// The oldest item of the lane, or None where the lane is empty; it never waits for an item.
    pub fn try_pop<R: Wait>(&mut self, rt: &R) -> Option<T>
        ensures { MatchOption result (self.new ≡ self.old)
            (λ x. self.new ≡ popped_from self.old x) }
    {
        get(rt, &self.lane, &mut self.pass)
    }

    /// The oldest item of the lane. While the lane is empty it waits: a short while awake, longer where that paid off the
    /// last time, and then asleep until a producer pushes. It returns only with an item, so it waits for ever where no
    /// producer pushes.
    pub fn pop_waiting<R: Wait>(&mut self, rt: &R) -> T
        ensures { self.new ≡ popped_from self.old result }
    {
        self.pop(rt, Rest::Sleep)
    }

    /// `pop_waiting` for a consumer that need not have at once what is pushed quietly: such items wake it only once
    /// enough are there (see `Pusher::push_quietly`), and any other push that rings does at once. It may wait for ever though
    /// items are there, where all were pushed quietly and are too few: a producer is to end with another push.
    pub fn pop_dozing<R: Wait>(&mut self, rt: &R) -> T
        ensures { self.new ≡ popped_from self.old result }
    {
        self.pop(rt, Rest::Doze)
    }

    fn pop<R: Wait>(&mut self, rt: &R, rest: Rest) -> T
        ensures { self.new ≡ popped_from self.old result }
    {
        if let Some(item) = self.pop_awake(rt) {
            return item;
        }
        for _ in rt.forever() {
            if let Some(item) = self.pop_or_rest(rt, rest) {
                return item;
            }
        }
        unreachable!()
    }

    // Tries for some rounds. Where an item comes while it waits so, as on a busy lane, the next wait has all rounds again;
    // where none does, it has one less, and of three none less: then only an item within these brings all back.
    fn pop_awake<R: Wait>(&mut self, rt: &R) -> Option<T>
        ensures { MatchOption result (self.new ≡ self.old)
            (λ x. self.new ≡ popped_from self.old x) }
    {
        if let Some(item) = self.try_pop(rt) {
            return Some(item);
        }
        let backoff = Backoff::new();
        for _waited in 0..self.rounds {
            backoff.spin();
            if let Some(item) = self.try_pop(rt) {
                self.rounds = MOST_ROUNDS;
                return Some(item);
            }
        }
        self.rounds = self.rounds.saturating_sub(1).max(FEWEST_ROUNDS);
        None
    }

    fn pop_or_rest<R: Wait>(&mut self, rt: &R, rest: Rest) -> Option<T>
        ensures { MatchOption result (self.new ≡ self.old)
            (λ x. self.new ≡ popped_from self.old x) }
    {
        get_or_rest(rt, &self.lane, &mut self.pass, rest)
    }
}
