ghost use Rattle.std.specs.Prelude.{◌≡◌, ◌↔◌, [], min, ◌-◌, ◌^◌, Contains, IsTrue};
ghost use Rattle.m17_ports.specs.Ports.{next_number};

use crate::{Crew, Starter};
use std::marker::Model;

/// The crew of the system: each job gets a thread. It refuses a start only where the system gives no thread or no
/// memory, and counts just these.
#[derive(Debug, Drop)]
pub struct StdCrew {
    starts: u64,
    refusals: u64,
}

impl Model for StdCrew {
    ghost use Rattle.std.specs.Prelude.{[]};
    ghost use Rattle.m17_crew.specs.Crew.{CrewKept};

    ghost Value = { CrewKept };

    ghost view = { λ c. record { refuses = []; starts = c.starts; refusals = c.refusals } };
}

impl StdCrew {
    ghost use Rattle.m17_crew.specs.Crew.{new_crew};

    /// A crew that has started nothing.
    pub fn new() -> StdCrew
        ensures new { result ≡ new_crew [] }
    {
        StdCrew {
            starts: 0,
            refusals: 0,
        }
    }
}

impl Crew for StdCrew {
    ghost use Rattle.std.proofs.Math.Nat.{min-le_right};

    ghost refusals = { λ c. min c.refusals (2 ^ 64 - 1) };

    ghost starts = { λ c. min c.starts (2 ^ 64 - 1) };

    ghost refuses = { λ c. c.refuses };

    ghost refusals_fit = { λ c. min-le_right c.refusals (2 ^ 64 - 1) };

    fn withholds_next(&mut self, _starter: &Starter) -> bool {
        self.starts = self.starts.saturating_add(1);
        false
    }

    fn count_refusal(&mut self, _starter: &Starter) {
        self.refusals = self.refusals.saturating_add(1);
    }
}
