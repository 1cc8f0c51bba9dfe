//! The end of a roll: all its seats brought together, and what they show then.
ghost use Rattle.std.specs.Prelude.{◌≡◌, ℕ, ◌+◌, ◌<◌, length, map, slice_index};
ghost use Rattle.std.specs.List.{All};
ghost use Rattle.atomic_table.specs.Seated.{TableId};
ghost use Rattle.m17_roll.specs.Closing.{AreAll, claims_of, gifts_of, IsEnded};
ghost use Rattle.m17_roll.specs.Sightings.{RisesAtPlaces};
ghost use Rattle.m17_roll.specs.Joined.{first_gathered, with_seat, IsGathered, end_of};

use super::{RollSeat, Words};
use crate::rule::{Joining, Notes, Reads};
use atomic_table::Seat;
use std::alloc::Global;
use std::marker::Model;
use std::sync::Arc;

/// A closed roll: the words that the places have in the end, all members that were claimed and that were given back, and
/// for each seat its refused askers. Contracts see them; nobody else holds a seat of the roll.
#[derive(Drop)]
pub struct RollEnd {
    table: Arc<Words, Global>,
    seat: Seat<(), Notes>,
    places: u32,
}

impl Model for RollEnd {
    ghost use Rattle.m17_roll.specs.Closing.{EndView};

    ghost Value = { EndView };

    ghost use Rattle.m17_roll.specs.EndModel.{end_view, IsWhole};

    ghost view = { end_view };

    ghost invariant = { IsWhole };
}

impl RollEnd {
    /// The word that the place has in the end: 2 g where it is free for its generation g, and 2 g + 1 where that generation
    /// still has it.
    pub fn word(&mut self, place: u32) -> u64
        requires { place < length self.old.words }
        ensures word { result ≡ slice_index self.old.words place }
        ensures same { self.new ≡ self.old }
    {
        self.table
            .shared
            .load::<Reads>(&mut self.seat, place as usize)
    }
}

// The seats that were joined so far.
#[derive(Drop)]
struct Gathering {
    table: Arc<Words, Global>,
    seat: Seat<(), Notes>,
    places: u32,
}

impl Model for Gathering {
    ghost use Rattle.m17_roll.specs.Joined.{GatheredView};

    ghost Value = { GatheredView };

    ghost use Rattle.m17_roll.specs.GatheredModel.{gathered_view, IsJoined};

    ghost view = { gathered_view };

    ghost invariant = { IsJoined };
}

impl Gathering {
    // The last seat alone.
    fn begin(last: RollSeat) -> Gathering
        ensures { result ≡ first_gathered last }
    {
        let RollSeat {
            table,
            seat,
            places,
        } = last;
        Gathering {
            table,
            seat,
            places,
        }
    }

    // One seat more, which goes before the others.
    fn take_in(&mut self, other: RollSeat)
        requires { other.roll ≡ self.old.roll }
        ensures { self.new ≡ with_seat self.old other }
    {
        let RollSeat { table: _, seat, .. } = other;
        self.table.shared.join_seat::<Joining>(&mut self.seat, seat);
    }

    // All seats are here.
    fn settle(self) -> RollEnd
        requires { self.parts ≡ self.seats }
        ensures shown { result ≡ end_of self }
        ensures ended { IsEnded result }
    {
        let Gathering {
            table,
            mut seat,
            places,
        } = self;
        table.shared.load::<Reads>(&mut seat, 0);
        RollEnd {
            table,
            seat,
            places,
        }
    }
}

/// Ends a roll: takes all its seats, as many as `make` gave, in any order, and shows what was claimed and given back in
/// all, the words of the places, and each seat's refused askers, in the order of the seats. Of two claims of a seat at one
/// place the later has the greater generation.
pub fn close(mut seats: Vec<RollSeat>) -> RollEnd
    requires { (roll : TableId) × (places : ℕ) × AreAll roll places seats.items }
    ensures claimed { result.claimed ≡ claims_of seats.items }
    ensures given { result.given ≡ gifts_of seats.items }
    ensures refused { result.refused ≡ map (λ s. s.refused) seats.items }
    ensures places { All (λ s. s.places ≡ length result.words) seats.items }
    ensures rising { All (λ s. RisesAtPlaces s.claimed) seats.items }
    ensures ended { IsEnded result }
{
    let Some(last) = seats.pop() else {
        unreachable!()
    };
    last.in_order();
    let mut gathering = Gathering::begin(last);
    while let Some(seat) = seats.pop() {
        seat.in_order();
        gathering.take_in(seat);
    }
    gathering.settle()
}
