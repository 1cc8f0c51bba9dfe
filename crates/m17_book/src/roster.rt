ghost use Rattle.std.specs.Prelude.{◌≡◌, ℕ, ◌<◌, ◌≤◌, List, [], length, max, Some, None, is_some, IsSome, false};
ghost use Rattle.m17_floor.specs.declared.act.Act.{Act};
ghost use Rattle.m17_floor.specs.Acts.{with_act, moment_before};
ghost use Rattle.m17_floor.specs.Floor.{verdict_at};
ghost use Rattle.m17_floor.specs.StandsFor.{packet_act, join_act, leave_act};
ghost use Rattle.m17_floor.specs.Legal.{book_setup};
ghost use Rattle.m17_book.specs.Roster.{stay_in, listens_of, RosterStandsFor};

use crate::stay::Stay;
use m17_floor::{Floor, Last, Verdict, laws as floor_laws};
use m17_stream::StreamPacket;
use m17_values::Member;
use std::array;
use std::marker::Model;

/// How many places a book can name.
pub(crate) const BOOK_PLACES: usize = 256;

// Who is in, by place, the last admitted frame of each, and the floor.
#[derive(Debug, Drop)]
pub(crate) struct Roster {
    stays: [Option<Stay>; BOOK_PLACES],
    lasts: [Last; BOOK_PLACES],
    floor: Floor,
}

impl Model for Roster {
    ghost use Rattle.std.specs.Prelude.{◌≡◌, length};
    ghost use Rattle.m17_book.specs.Roster.{People};

    ghost Value = { People };

    ghost view = { λ r. record { stays = r.stays; lasts = r.lasts; floor = r.floor } };

    ghost invariant = { λ r. (length r.stays ≡ 256) × (length r.lasts ≡ 256) };
}

// Nobody is in at any place.
fn nobody() -> [Option<Stay>; BOOK_PLACES]
    ensures none { (place : ℕ) → stay_in result place ≡ None }
    ensures each { length result ≡ 256 }
{
    array::from_fn(
        |_| -> Option<Stay>
            ensures { result ≡ None }
        { None },
    )
}

impl Roster {
    // Nobody is in, and the floor has this limit.
    pub(crate) fn new(limit: u64) -> Roster
        ensures { RosterStandsFor limit [] result }
    {
        floor_laws::one_act_more_goes_by_what_is_left();
        Roster {
            stays: nobody(),
            lasts: array::from_fn(|_| Last::new()),
            floor: Floor::new(limit),
        }
    }

    // Who is in at a place; past the places nobody.
    #[inline]
    pub(crate) fn stay_at(&self, place: u32) -> Option<Stay>
        ensures { result ≡ stay_in self.now.stays place }
    {
        match self.stays.get(place as usize) {
            Some(stay) => *stay,
            None => None,
        }
    }

    // Of a member that is in, whether it joined to listen only.
    #[inline]
    pub(crate) fn listens(&self, k: Member) -> Option<bool>
        ensures { result ≡ listens_of self.now.stays k }
    {
        let stay = self.stay_at(k.place)?;
        if stay.generation == k.generation {
            Some(stay.listens)
        } else {
            None
        }
    }

    // A member comes in at a place where nobody is. Past the places nothing happens.
    pub(crate) fn join(&mut self, k: Member, listens: bool)
        requires { stay_in self.old.stays k.place ≡ None }
        ensures { (limit : ℕ) → (acts : List Act) → (at : ℕ) → RosterStandsFor limit acts self.old
            → RosterStandsFor limit (with_act acts (join_act at k listens)) self.new }
    {
        floor_laws::one_act_more_goes_by_what_is_left();
        floor_laws::strangers_change_nothing();
        floor_laws::comings_and_goings_leave_others();
        if k.place as usize >= BOOK_PLACES {
            return;
        }
        let place = k.place as usize;
        self.stays[place] = Some(Stay {
            generation: k.generation,
            listens,
        });
        self.lasts[place] = Last::new();
    }

    // A member that is in leaves.
    pub(crate) fn leave(&mut self, k: Member)
        requires { IsSome (listens_of self.old.stays k) }
        ensures { (limit : ℕ) → (acts : List Act) → (at : ℕ) → RosterStandsFor limit acts self.old
            → RosterStandsFor limit (with_act acts (leave_act at k)) self.new }
    {
        floor_laws::one_act_more_goes_by_what_is_left();
        floor_laws::comings_and_goings_leave_others();
        self.floor.left(k);
        self.stays[k.place as usize] = None;
    }

    // Judges a packet of a member that is in, and not to listen only.
    fn speak(&mut self, k: Member, at: u64, p: &StreamPacket) -> Verdict
        requires { listens_of self.old.stays k ≡ Some false }
        ensures stands { (limit : ℕ) → (acts : List Act) → (moment : ℕ)
            → at ≡ max (moment_before acts (length acts)) moment → RosterStandsFor limit acts self.old
            → RosterStandsFor limit (with_act acts (packet_act moment k p.now)) self.new
            × (verdict_at (book_setup limit) (with_act acts (packet_act moment k p.now)) (length acts)
            ≡ Some result) }
    {
        floor_laws::one_act_more_goes_by_what_is_left();
        let own = &mut self.lasts[k.place as usize];
        self.floor.judge(k, at, p, own)
    }

    // The verdict on a packet of a member, or of one that is none, at the module's moment.
    pub(crate) fn judge(&mut self, k: Member, at: u64, p: &StreamPacket) -> Verdict
        ensures stands { (limit : ℕ) → (acts : List Act) → (moment : ℕ)
            → at ≡ max (moment_before acts (length acts)) moment → RosterStandsFor limit acts self.old
            → RosterStandsFor limit (with_act acts (packet_act moment k p.now)) self.new
            × (verdict_at (book_setup limit) (with_act acts (packet_act moment k p.now)) (length acts)
            ≡ Some result) }
    {
        floor_laws::one_act_more_goes_by_what_is_left();
        floor_laws::strangers_change_nothing();
        match self.listens(k) {
            None => Verdict::NotMember,
            Some(true) => Verdict::ListenOnly,
            Some(false) => self.speak(k, at, p),
        }
    }
}
