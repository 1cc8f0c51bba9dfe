ghost use Rattle.std.specs.Prelude.{◌≡◌, ◌<◌, ℕ, List, length, IfOk, IsSome, Option, Some, false};
ghost use Rattle.m17_ports.specs.Told.{told_then};
ghost use Rattle.m17_decorators.specs.Pace.{Event, IsDecided, once_decided, once_read};
ghost use Rattle.m17_decorators.specs.Paced.{readings};
ghost use Rattle.m17_decorators.specs.PaceMemory.{AreWhole, IsNew, Remembers};

use crate::clock::Stopwatch;
use crate::moments::Moments;
use crate::places::Places;
use m17_values::{NoMemory, Peer};
use std::alloc::Global;

/// How many peers have a place.
const PLACES: usize = 256;

/// After how many frames the clock is read again, at the most.
const MOST_UNREAD: usize = 64;

/// After which part of what may pass to a peer in a second it is read again, at the most.
const UNREAD_PART: usize = 8;

// What a pace remembers: the moments that its clock told, and the frames that passed. `unread` says
// how many passed since the clock was read.
//
// What passes between two readings counts as of the later one, since a frame that was taken to be
// older than it is would make room too soon. So a reading that comes late refuses what a finer one
// had let through: as many frames as the peer was sent in between. That is little where 64 frames
// go to many peers, and most of a small bound where they all go to one; so the clock is read once
// for 64 frames, before them where one peer was sent an eighth of its bound, and before a frame is
// refused. Where fewer passed in all, no peer is looked up for that.
#[derive(Drop)]
pub(crate) struct Pace {
    pub(crate) moments: Moments,
    pub(crate) places: Places,
    pub(crate) most: usize,
    pub(crate) unread: usize,
}

impl Pace {
    // A pace of so many frames that nothing has come to.
    pub(crate) fn make(alloc: Global, most: usize) -> Result<Pace, NoMemory>
        ensures { IfOk result (IsNew most) }
    {
        let moments = Moments::make(alloc)?;
        let places = Places::make(alloc, PLACES, most)?;
        Ok(Pace {
            moments,
            places,
            most,
            unread: MOST_UNREAD,
        })
    }

    // Whether a frame to this peer passes. It is remembered.
    pub(crate) fn passes<C: Stopwatch>(
        &mut self,
        clock: &mut C,
        to: &Peer,
    ) -> (Option<Option<u64>>, bool)
        requires whole { AreWhole self.old.moments }
        requires some { 0 < self.old.most }
        ensures whole { AreWhole self.new.moments }
        ensures most { self.new.most ≡ self.old.most }
        ensures places { length self.new.places.list.items ≡ length self.old.places.list.items }
        ensures read { C.answers clock.new ≡ told_then (C.answers clock.old) (readings result.0) }
        ensures decided { (past : List Event) → Remembers self.old past
            → IsDecided self.old.most (length self.old.places.list.items) to.now result.0
            (once_read result.0 past) result.1 }
        ensures remembered { (past : List Event) → Remembers self.old past
            → Remembers self.new (once_decided to.now result.1 (once_read result.0 past)) }
    {
        if self.is_due(to) {
            let read = self.look(clock);
            let passes = self.admit(to);
            return (Some(read), passes);
        }
        if self.admit(to) {
            return (None, true);
        }
        let read = self.look(clock);
        let passes = self.admit(to);
        (Some(read), passes)
    }

    // Whether the clock is to be read before the next frame to this peer.
    fn is_due(&self, to: &Peer) -> bool {
        let part = self.most / UNREAD_PART;
        self.unread >= MOST_UNREAD
            || self.unread >= part && self.places.has_passed(to, part, self.moments.last)
    }

    // Reads the clock.
    fn look<C: Stopwatch>(&mut self, clock: &mut C) -> Option<u64>
        requires { AreWhole self.old.moments }
        ensures whole { AreWhole self.new.moments }
        ensures most { self.new.most ≡ self.old.most }
        ensures places { length self.new.places.list.items ≡ length self.old.places.list.items }
        ensures read { C.answers clock.new ≡ told_then (C.answers clock.old) (readings (Some result)) }
        ensures remembered { (past : List Event) → Remembers self.old past
            → Remembers self.new (once_read (Some result) past) }
    {
        let answer = clock.read();
        if let Some(at) = answer {
            self.moments.learn(at);
            self.unread = 0;
        }
        answer
    }

    // Whether a frame to this peer passes by what is known. If so, it is remembered.
    fn admit(&mut self, to: &Peer) -> bool
        requires whole { AreWhole self.old.moments }
        requires some { 0 < self.old.most }
        ensures whole { AreWhole self.new.moments }
        ensures most { self.new.most ≡ self.old.most }
        ensures places { length self.new.places.list.items ≡ length self.old.places.list.items }
        ensures decided { (past : List Event) → Remembers self.old past → (read : Option (Option ℕ))
            → (result ≡ false → IsSome read)
            → IsDecided self.old.most (length self.old.places.list.items) to.now read past result }
        ensures remembered { (past : List Event) → Remembers self.old past
            → Remembers self.new (once_decided to.now result past) }
        ensures same { result ≡ false → self.new ≡ self.old }
    {
        let passes = self
            .places
            .admit(to, self.moments.last, self.moments.cut, self.most);
        if passes {
            self.unread = self.unread.saturating_add(1);
        }
        passes
    }
}
