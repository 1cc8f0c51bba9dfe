//! A seat at the roll: claim a place, give it back, look at its word.
ghost use Rattle.std.specs.Prelude.{◌≡◌, ◌⊎◌, ℕ, ◌<◌, ◌≤◌, ◌↔◌, length, replicate, IfOk, IfSome, IfNone, IsNone, MatchOption, [], ◌∷◌, ◌++◌};
ghost use Rattle.std.specs.Bool.{MatchBool, OnTrue, OnFalse};
ghost use Rattle.m17_roll.specs.Sightings.{sighting, NeverFalls, RisesAtPlaces};
ghost use Rattle.m17_roll.specs.Seat.{AreNew, IsSameSeat, HasLists, with_looks, with_gift, IsClaim, IsRefusal, IsNotGiven, IsNotClaimed, TakesAt, PassesAt};
ghost use Rattle.m17_roll.specs.Rule.{SeenElse};

use crate::rule::{
    Asker, ClaimsFor, Gives, Looks, LooksFor, Nobody, Notes, Parting, RollRule, Shape,
};
use atomic_table::{Seat, Table};
use m17_values::{Member, NoMemory};
use std::alloc::Global;
use std::marker::{Brand, Model};
use std::sync::Arc;

mod closing;

pub use closing::{RollEnd, close};

/// The table of words. It has no slots.
type Words = Table<(), Notes, Shape, RollRule, Global>;

/// A free word at its last value, 2^64 - 2. It is never taken again.
const LAST_WORD: u64 = 18_446_744_073_709_551_614;

/// No place comes to this generation or a later one.
const END_OF_GENERATIONS: u64 = 9_223_372_036_854_775_807;

/// A seat at a roll, for one thread.
#[derive(Drop)]
pub struct RollSeat {
    table: Arc<Words, Global>,
    seat: Seat<(), Notes>,
    places: u32,
}

impl Model for RollSeat {
    ghost use Rattle.m17_roll.specs.Seat.{RollView};

    ghost Value = { RollView };

    ghost use Rattle.m17_roll.specs.SeatModel.{seat_view, IsSeated};

    ghost view = { seat_view };

    ghost invariant = { IsSeated };
}

impl RollSeat {
    /// Claims a place for whoever asks: the lowest one that is found free, for its next generation. `asker` is any number
    /// that names who asks, such as a link's. Looks at each place in turn, and tries one exchange where it is free. None
    /// comes only where every place of the roll was seen taken in this call, and then the asker is noted as refused: a
    /// place was seen taken where its word was odd, or is at its last value, or another seat took it between this call's
    /// look and its exchange.
    pub fn claim(&mut self, asker: u64) -> Option<Member>
        ensures claimed { IfSome result (λ m. IsClaim self.old m self.new) }
        ensures refused { IfNone result (IsRefusal self.old asker self.new) }
        ensures never_falls { NeverFalls self.new.seen }
        ensures rising { RisesAtPlaces self.new.claimed }
        ensures lists { MatchOption result
            (HasLists self.old.claimed self.old.given (self.old.refused ++ asker ∷ []) self.new)
            (λ m. HasLists (self.old.claimed ++ m ∷ []) self.old.given self.old.refused self.new) }
        ensures seat { IsSameSeat self.old self.new }
    {
        for place in 0..self.places {
            if let Some(member) = self.try_at::<Brand>(place, Some(asker)) {
                self.in_order();
                return Some(member);
            }
        }
        self.in_order();
        None
    }

    /// Claims this place and no other, for its next generation. One look, and one exchange where the place is free. None
    /// comes only where the roll has no such place, and then nothing is done, or where the place was seen taken in this
    /// call, as in `claim`. Nobody is noted as refused: whoever asks may try another place.
    pub fn claim_at(&mut self, place: u32) -> Option<Member>
        ensures claimed { IfSome result (λ m. TakesAt self.old place m self.new) }
        ensures refused { IfNone result (IsNotClaimed self.old place self.new) }
        ensures never_falls { NeverFalls self.new.seen }
        ensures rising { RisesAtPlaces self.new.claimed }
        ensures lists { MatchOption result
            (HasLists self.old.claimed self.old.given self.old.refused self.new)
            (λ m. HasLists (self.old.claimed ++ m ∷ []) self.old.given self.old.refused self.new) }
        ensures seat { IsSameSeat self.old self.new }
    {
        if place >= self.places {
            self.in_order();
            return None;
        }
        let member = self.try_at::<Nobody>(place, None);
        self.in_order();
        member
    }

    /// Gives a member back, so that its place is free for the next generation: true where the place's word was that of the
    /// member. False comes where there is no such place, or the word was another one, and nothing changes then.
    pub fn give(&mut self, member: Member) -> bool
        ensures given { OnTrue result (self.new ≡ with_gift self.old member) }
        ensures refused { OnFalse result (IsNotGiven self.old member self.new) }
        ensures lists { MatchBool result
            (HasLists self.old.claimed (self.old.given ++ member ∷ []) self.old.refused self.new)
            (HasLists self.old.claimed self.old.given self.old.refused self.new) }
        ensures seat { IsSameSeat self.old self.new }
    {
        let place = member.place;
        if place >= self.places || member.generation >= END_OF_GENERATIONS {
            return false;
        }
        let taken = 2 * member.generation + 1;
        let found = self
            .table
            .shared
            .compare_exchange::<Gives>(&mut self.seat, place as usize, taken, taken + 1);
        found == taken
    }

    /// The word of a place: 2 g while it is free for its generation g, and 2 g + 1 while that generation has it. None comes
    /// exactly where there is no such place.
    pub fn look(&mut self, place: u32) -> Option<u64>
        ensures some { IfSome result (λ w. self.new ≡ with_looks self.old (sighting place w ∷ [])) }
        ensures none { IfNone result (self.new ≡ self.old) }
        ensures no_place { IsNone result ↔ (self.old.places ≤ place) }
        ensures never_falls { NeverFalls self.new.seen }
        ensures lists { HasLists self.old.claimed self.old.given self.old.refused self.new }
        ensures seat { IsSameSeat self.old self.new }
    {
        if place >= self.places {
            return None;
        }
        let word = self
            .table
            .shared
            .load::<Looks>(&mut self.seat, place as usize);
        self.in_order();
        Some(word)
    }

    // One place of a claim, for this asker, if who asks is to be noted. Where it is seen taken, these askers are refused.
    fn try_at<A: Asker>(&mut self, place: u32, asker: Option<u64>) -> Option<Member>
        requires in_roll { place < self.old.places }
        requires others { SeenElse self.old.places place self.old.seen A.askers }
        ensures claimed { IfSome result (λ m. TakesAt self.old place m self.new) }
        ensures refused { IfNone result (PassesAt self.old place A.askers self.new) }
    {
        let at = place as usize;
        let word = self.table.shared.load::<LooksFor<A>>(&mut self.seat, at);
        if word % 2 == 1 || word == LAST_WORD {
            return None;
        }
        let found = self
            .table
            .shared
            .compare_exchange::<ClaimsFor<A>>(&mut self.seat, at, word, word + 1);
        if found != word {
            return None;
        }
        Some(Member {
            place,
            generation: word / 2,
        })
    }

    // What is always so of a seat's own lists.
    fn in_order(&self)
        ensures never_falls { NeverFalls self.now.seen }
        ensures rising { RisesAtPlaces self.now.claimed }
    {
        let _ = &self.seat;
    }
}

/// Makes a roll of places that are all free for generation 0, and its seats. `places` is 1 to 256, and there is at least
/// one seat; each thread takes one. `NoMemory` where there is none for the words, the seats or their count.
pub fn make(alloc: Global, places: u32, seats: u32) -> Result<Vec<RollSeat>, NoMemory>
    requires places { (0 < places) × (places ≤ 256) }
    requires seats { 0 < seats }
    ensures { IfOk result (λ v. AreNew places seats v.items) }
{
    let words = vec![in alloc; 0u64; places as usize]?;
    let shape = Shape { places, seats };
    let (table, mut seat) = Words::of_words(alloc, words.as_slice(), &shape)?;
    let table = Arc::new(alloc, table)?;
    let mut all = Vec::with_capacity(alloc, seats as usize)?;
    while all.len() + 1 < seats as usize {
        let another = table.shared.split_seat::<Parting>(&mut seat);
        let shared = Arc::try_clone(&table)?;
        all.push_reserved(RollSeat {
            table: shared,
            seat: another,
            places,
        });
    }
    all.push_reserved(RollSeat {
        table,
        seat,
        places,
    });
    Ok(all)
}
