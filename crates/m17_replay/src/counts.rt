ghost use Rattle.std.specs.Prelude.{◌≡◌, ◌<◌, ◌^◌, ◌-◌, ℕ, [], ◌∷◌, ◌++◌, List, length, slice_index};
ghost use Rattle.m17_floor.specs.declared.verdict.Verdict.{Verdict};
ghost use Rattle.m17_print.specs.Kinds.{kind_place};
ghost use Rattle.m17_replay.specs.Summary.{count_at, Outcome};
ghost use Rattle.m17_replay.specs.Counted.{CountsAre};

use crate::kind::kind_of;
use m17_directory::LinkVerdict;
use m17_floor::Verdict;
use m17_print::{KIND_COUNT, Kind};
use std::marker::Model;

/// How many entries were of each kind. Contracts see the numbers, in the order of the summary.
#[derive(Clone, Copy, Debug)]
pub struct Counts([u64; KIND_COUNT]);

impl Model for Counts {
    ghost use Rattle.std.specs.Prelude.{List, ℕ};

    ghost Value = { List ℕ };

    ghost view = { λ c. c.0 };

    ghost inverse = { λ n. record { 0 = n } };
}

impl Counts {
    /// No entry.
    pub fn new() -> Counts
        ensures { CountsAre result [] }
    {
        Counts([0; KIND_COUNT])
    }

    /// One entry more, by what it came to and the verdict on its packet. A number that has come to 2^64 - 1 stays there.
    pub fn count(&mut self, l: &LinkVerdict, v: &Option<Verdict>)
        ensures { (before : List Outcome) → length before < 2 ^ 64 - 1 → CountsAre self.old before →
            CountsAre self.new (before ++ (l.now, v.now) ∷ []) }
    {
        if let Some(kind) = kind_of(l, v) {
            let place = kind.place();
            self.0[place] = self.0[place].saturating_add(1);
        }
    }

    /// How many were of this kind.
    pub fn of(&self, kind: Kind) -> u64
        ensures { (outcomes : List Outcome) → CountsAre self.now outcomes →
            result ≡ count_at (kind_place kind) outcomes }
    {
        self.0[kind.place()]
    }
}
