//! What a receiver does with one entry.
ghost use Rattle.std.specs.Prelude.{◌≡◌, ◌↔◌, ℕ, ◌+◌, ◌-◌, ◌^◌, min, true, false, List, [], ◌∷◌, ◌++◌, length, IsSome, IsTrue, Option, None, Some};
ghost use Rattle.m17_values.specs.declared.heard.Heard.{Heard};
ghost use Rattle.m17_values.specs.declared.heard.Heard.TheVariants.{Fault, End};
ghost use Rattle.m17_directory.specs.declared.verdict.LinkVerdict.TheVariants.{Asks};
ghost use Rattle.m17_directory.specs.Entries.{Notice, Entry, Says};
ghost use Rattle.m17_receiver.specs.SoFar.{Plan, IsPlanOf, IsAsking, IsThrough, IsSoFar, IsKept, HasTaken, HasNotedSome, parts_of};

use crate::Receiver;
use crate::claim::{claim_behind, claim_patiently};
use crate::laws::known_laws;
use crate::notes::{pop_notes, pop_until_ready};
use crate::posting::push_posts;
use m17_directory::LinkVerdict;
use m17_values::{Heard, Member};
use std::sync::Wait;

impl<E, B> Receiver<E, B> {
    // What becomes of the entry with this index: its verdict.
    pub(crate) fn enter<R: Wait>(
        &mut self,
        rt: &R,
        entry: &Heard,
        index: u64,
        noted: &mut u64,
        left: &mut Option<Member>,
    ) -> LinkVerdict
        requires posted { self.old.post ≡ [] }
        requires asked { self.old.directory.asked ≡ None }
        requires open { self.old.directory.ended ≡ false }
        requires places { self.old.directory.setup.places ≡ self.old.seat.places }
        ensures kept { IsKept self.old self.new }
        ensures asked { self.new.directory.asked ≡ None }
        ensures says { (notice : Notice) × Says entry.now notice }
        ensures over { entry.now ≡ End → self.new.directory.ended ≡ true }
        ensures through { (plan : Plan) (entries : List Entry) (notice : Notice) →
            IsPlanOf plan self.old → index ≡ length entries → Says entry.now notice →
            IsSoFar plan entries (parts_of self.old noted.old) →
            IsThrough plan entries notice (parts_of self.new noted.new) result }
    {
        known_laws();
        // models/circle.pml: notes-popped
        pop_notes(rt, &mut self.notes, &mut self.directory, noted, left);
        let verdict = self.directory.hear(index, entry, &mut self.post);
        // models/circle.pml: posts-pushed
        push_posts(
            rt,
            self.modules,
            self.patient,
            &mut self.post,
            &mut self.inboxes,
            &mut self.door,
        );
        match verdict {
            LinkVerdict::Asks => self.answer(rt, index, noted, left),
            _ => verdict,
        }
    }

    // What becomes of the request that is asked, by the entry with this index.
    fn answer<R: Wait>(
        &mut self,
        rt: &R,
        index: u64,
        noted: &mut u64,
        left: &mut Option<Member>,
    ) -> LinkVerdict
        requires posted { self.old.post ≡ [] }
        requires asked { IsSome self.old.directory.asked }
        requires places { self.old.directory.setup.places ≡ self.old.seat.places }
        ensures kept { IsKept self.old self.new }
        ensures asked { self.new.directory.asked ≡ None }
        ensures ended { self.new.directory.ended ≡ self.old.directory.ended }
        ensures through { (plan : Plan) (entries : List Entry) (notice : Notice) →
            IsPlanOf plan self.old → index ≡ length entries →
            IsAsking plan entries notice (parts_of self.old noted.old) →
            IsThrough plan entries notice (parts_of self.new noted.new) result }
    {
        known_laws();
        // models/circle.pml: notes-awaited
        pop_until_ready(rt, &mut self.notes, &mut self.directory, noted, left);
        // models/circle.pml: place-claimed
        let claimed = self.claim(rt, index, noted, *left);
        let verdict = self.directory.settle(claimed, *noted, &mut self.post);
        // models/circle.pml: answer-pushed
        push_posts(
            rt,
            self.modules,
            self.patient,
            &mut self.post,
            &mut self.inboxes,
            &mut self.door,
        );
        verdict
    }

    // The place that the asker with this index gets. A patient receiver claims none where all are known to its link,
    // and else until it has one that no peer has that is known there; another claims once, and behind the member that
    // left last.
    fn claim<R: Wait>(
        &mut self,
        rt: &R,
        index: u64,
        noted: &mut u64,
        left: Option<Member>,
    ) -> Option<Member>
        ensures taken { HasTaken self.old.patient index result self.old.directory.known
            self.old.seat self.new.seat }
        ensures full { self.old.patient ≡ true →
            (result ≡ None) ↔ (length self.old.directory.known ≡ self.old.places) }
        ensures noted { HasNotedSome (self.old.notes, self.old.directory, noted.old)
            (self.new.notes, self.new.directory, noted.new) }
        ensures rest { self.new ≡ record self.old {
          notes = self.new.notes;
          directory = self.new.directory;
          seat = self.new.seat;
        } }
    {
        if !self.patient {
            return claim_behind(rt, &mut self.seat, left, index);
        }
        // models/circle.pml: all-known
        if self.directory.known() == self.places {
            return None;
        }
        Some(claim_patiently(
            rt,
            &mut self.seat,
            self.places,
            &mut self.notes,
            &mut self.directory,
            noted,
        ))
    }
}
