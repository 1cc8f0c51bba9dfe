ghost use Rattle.std.specs.Prelude.{◌≡◌, ◌↔◌, ℕ, ◌-◌, ◌^◌, ◌≤◌, List, Contains, IsTrue, IsErr, MatchResult, OnErr};
ghost use Rattle.m17_io.specs.Faults.{HasCause};
ghost use Rattle.m17_ports.specs.Ports.{next_number};

use crate::running::begin;
use crate::{Running, Work};
use std::alloc::Global;
use std::sync::Wait;
use std::thread::{Builder, Threads};

/// What `Crew::start` alone has, and shows to the crew. No other crate can make one, so a crew is told of a start, and
/// that one was refused, by nobody else.
#[derive(Drop)]
pub struct Starter(());

/// What starts jobs, each in a thread of its own.
pub trait Crew {
    /// How many starts were refused.
    ghost refusals: { Self → ℕ };

    /// How many starts there were, which is the number of the next one.
    ghost starts: { Self → ℕ };

    /// The numbers of the starts that it refuses of itself, whatever the system would do.
    ghost refuses: { Self → List ℕ };

    /// Counts a start, and says whether it is one that is refused untried.
    fn withholds_next(&mut self, starter: &Starter) -> bool
        ensures withheld { IsTrue result ↔ Contains (refuses self.old) (starts self.old) }
        ensures counted { starts self.new ≡ next_number (starts self.old) }
        ensures others { (refusals self.new ≡ refusals self.old)
            × (refuses self.new ≡ refuses self.old) };

    /// Counts a refusal.
    fn count_refusal(&mut self, starter: &Starter)
        ensures counted { refusals self.new ≡ next_number (refusals self.old) }
        ensures others { (starts self.new ≡ starts self.old)
            × (refuses self.new ≡ refuses self.old) };

    /// A count of refusals is a number of 64 bits: one that stands at the greatest stays there.
    ghost refusals_fit: { (crew : Self) → refusals crew ≤ 2 ^ 64 - 1 };

    /// Starts the job in a thread of its own. It comes back as it was, and the refusal is counted, where the crew
    /// withholds this start, where the system gives no thread, and where there is no memory for it; nothing of the job
    /// was done then.
    final fn start<W: Work, R: Threads + Wait + Copy + Send + 'static>(
        &mut self,
        rt: &R,
        alloc: Global,
        job: W,
    ) -> Result<Running<W>, W>
        requires ready { W.ready job }
        ensures job { MatchResult result (λ running. running ≡ job) (λ back. back ≡ job) }
        ensures cause { HasCause (refusals self.old) (refusals self.new) result }
        ensures once { OnErr result (refusals self.new ≡ next_number (refusals self.old)) }
        ensures withheld { Contains (refuses self.old) (starts self.old) → IsErr result }
        ensures counted { starts self.new ≡ next_number (starts self.old) }
        ensures same_refuses { refuses self.new ≡ refuses self.old }
    {
        let starter = Starter(());
        if self.withholds_next(&starter) {
            self.count_refusal(&starter);
            return Err(job);
        }
        match begin(rt, alloc, Builder::new(), job) {
            Ok(running) => Ok(running),
            Err(back) => {
                self.count_refusal(&starter);
                Err(back)
            }
        }
    }
}
