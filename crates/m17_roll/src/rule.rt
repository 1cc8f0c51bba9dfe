//! The rule that every step on the table keeps, as the kit's table asks for it: what each seat knows, and what each
//! kind of step tells its seat.
ghost use Rattle.std.specs.Prelude.{List, ℕ, []};

use atomic_table::{Join, Play, Split, TableRule};
use m17_values::Member;
use std::collections::LinkedList;
use std::marker::{Brand, PhantomData};

/// How many places and seats a roll has.
#[derive(Drop)]
pub struct Shape {
    pub places: u32,
    pub seats: u32,
}

/// A word that a seat found at a place. The word of a place is 2 g while the place is free for its generation g, and
/// 2 g + 1 while that generation has it.
pub struct Sighting {
    /// The place, from 0.
    pub place: u32,
    /// The word that was found there.
    pub word: u64,
}

/// What a seat knows. No value of it is made.
pub struct Notes {
    /// How many places the roll has.
    pub places: u32,
    /// How many of the roll's seats this one is, those that were joined to it with it.
    pub parts: u32,
    /// The members that it claimed.
    pub claimed: LinkedList<Member>,
    /// The members that it gave back.
    pub given: LinkedList<Member>,
    /// What it found where a giving back was refused.
    pub missed: LinkedList<Sighting>,
    /// The askers that it refused.
    pub refused: LinkedList<u64>,
    /// The refused askers of each seat that was joined to it.
    pub finished: LinkedList<LinkedList<u64>>,
    /// What it found at looks and at lost exchanges.
    pub seen: LinkedList<Sighting>,
}

pub struct RollRule;

impl TableRule<(), Notes, Shape> for RollRule {
    ghost use Rattle.m17_roll.specs.Rule.{Kept};
    ghost use Rattle.m17_roll.specs.Notes.{newcomer};

    ghost holds = { λ k s. Kept k.places k.seats s };

    ghost first = { λ k. newcomer k.places k.seats };
}

/// A look at a word.
pub struct Looks;

impl Play<(), Notes> for Looks {
    ghost use Rattle.m17_roll.specs.Rule.{looked};

    ghost then = { looked };
}

/// Who is refused if this step finds its place taken: one asker, or nobody.
pub trait Asker {
    ghost askers: { List ℕ };
}

impl Asker for Brand {
    ghost askers = { [] };
}

/// Nobody is refused, wherever the place is found taken.
pub struct Nobody;

impl Asker for Nobody {
    ghost askers = { [] };
}

/// A look of a claim.
pub struct LooksFor<A> {
    marker: PhantomData<A>,
}

impl<A: Asker> Play<(), Notes> for LooksFor<A> {
    ghost use Rattle.m17_roll.specs.Rule.{looked_for};

    ghost then = { looked_for A.askers };
}

/// The exchange of a claim, won or lost.
pub struct ClaimsFor<A> {
    marker: PhantomData<A>,
}

impl<A: Asker> Play<(), Notes> for ClaimsFor<A> {
    ghost use Rattle.m17_roll.specs.Rule.{claims_for};

    ghost then = { claims_for A.askers };
}

/// The exchange of a giving back, won or lost.
pub struct Gives;

impl Play<(), Notes> for Gives {
    ghost use Rattle.m17_roll.specs.Rule.{gives};

    ghost then = { gives };
}

/// A look by the seat that all others were joined to, which shows the whole table.
pub struct Reads;

impl Play<(), Notes> for Reads {
    ghost use Rattle.m17_roll.specs.Rule.{reads};

    ghost then = { reads };
}

/// One seat more.
pub struct Parting;

impl Split<Notes> for Parting {
    ghost use Rattle.m17_roll.specs.Notes.{newcomer, rest_of};

    ghost left = { rest_of };

    ghost right = { λ v. newcomer v.places 1 };
}

/// One seat less: what the second one knows goes before what the first one knows.
pub struct Joining;

impl Join<Notes> for Joining {
    ghost use Rattle.m17_roll.specs.Notes.{newcomer, joined};

    ghost both = { joined };

    ghost spent = { newcomer 0 0 };
}
