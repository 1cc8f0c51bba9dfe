ghost use Rattle.std.specs.Prelude.{◌≡◌, ◌↔◌, min, ◌-◌, ◌^◌, Contains, IsTrue};
ghost use Rattle.m17_ports.specs.Ports.{next_number};

use crate::{Crew, Starter};
use std::marker::Model;

/// A crew that can be told to refuse, for tests. It starts the other jobs as `StdCrew` does.
#[derive(Debug, Drop)]
pub struct RefusingCrew {
    refuses: Vec<u64>,
    starts: u64,
    refusals: u64,
}

impl Model for RefusingCrew {
    ghost use Rattle.m17_crew.specs.Crew.{CrewKept};

    ghost Value = { CrewKept };

    ghost view = { λ c. record {
      refuses = c.refuses.items;
      starts = c.starts;
      refusals = c.refusals;
    } };
}

impl RefusingCrew {
    ghost use Rattle.m17_crew.specs.Crew.{new_crew};

    /// A crew that has started nothing, and refuses the starts with these numbers, counted from 0.
    pub fn new(refuses: Vec<u64>) -> RefusingCrew
        ensures new { result ≡ new_crew refuses.items }
    {
        RefusingCrew {
            refuses,
            starts: 0,
            refusals: 0,
        }
    }
}

impl Crew for RefusingCrew {
    ghost use Rattle.std.proofs.Math.Nat.{min-le_right};

    ghost refusals = { λ c. min c.refusals (2 ^ 64 - 1) };

    ghost starts = { λ c. min c.starts (2 ^ 64 - 1) };

    ghost refuses = { λ c. c.refuses };

    ghost refusals_fit = { λ c. min-le_right c.refusals (2 ^ 64 - 1) };

    fn withholds_next(&mut self, _starter: &Starter) -> bool {
        let start = self.starts;
        self.starts = self.starts.saturating_add(1);
        self.refuses.contains(&start)
    }

    fn count_refusal(&mut self, _starter: &Starter) {
        self.refusals = self.refusals.saturating_add(1);
    }
}
