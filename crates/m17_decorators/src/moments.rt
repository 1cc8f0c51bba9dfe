ghost use Rattle.std.specs.Prelude.{◌≡◌, ◌<◌, ◌≤◌, ◌-◌, ℕ, ◌∷◌, List, [], length, IfOk, Some, false};
ghost use Rattle.circular_buffer.specs.Buffer.{buffer};
ghost use Rattle.m17_decorators.specs.Pace.{Event, once_read};
ghost use Rattle.m17_decorators.specs.PaceMemory.{AreOf, AreWhole, RunsUp, last_below, starts_before};

use circular_buffer::HeapCircularBuffer;
use m17_values::NoMemory;
use std::alloc::Global;

/// How long a frame counts, in milliseconds.
const SECOND_MS: u64 = 1_000;

/// How many moments a second has, with its two ends.
const ROOM: usize = 1_001;

// The moments that a clock told: the latest one, the latest that lies more than a second before it,
// and those in between, with the latest.
#[derive(Drop)]
pub(crate) struct Moments {
    pub(crate) last: u64,
    pub(crate) cut: u64,
    pub(crate) later: HeapCircularBuffer<u64>,
}

impl Moments {
    // None yet.
    pub(crate) fn make(alloc: Global) -> Result<Moments, NoMemory>
        ensures { IfOk result (λ m. m ≡ record { last = 0; cut = 0; later = buffer [] 1001 }) }
    {
        let later = HeapCircularBuffer::with_capacity(alloc, ROOM)?;
        Ok(Moments {
            last: 0,
            cut: 0,
            later,
        })
    }

    // The clock told this moment. One that is not later than the latest is passed over.
    pub(crate) fn learn(&mut self, at: u64)
        requires { AreWhole self.old }
        ensures whole { AreWhole self.new }
        ensures cut { self.old.cut ≤ self.new.cut }
        ensures now { self.old.last ≤ self.new.last }
        ensures learned { (past : List Event) → AreOf past self.old
            → AreOf (once_read (Some (Some at)) past) self.new }
    {
        if at <= self.last {
            return;
        }
        self.forget(at.saturating_sub(SECOND_MS));
        self.later.push_back(at);
        self.last = at;
    }

    // Forgets moments before this one, but the latest of them.
    fn forget(&mut self, from: u64)
        requires { RunsUp self.old.cut self.old.later.items self.old.last }
        ensures up { RunsUp self.new.cut self.new.later.items self.new.last }
        ensures late { starts_before from self.new.later.items ≡ false }
        ensures cut { self.old.cut ≤ self.new.cut }
        ensures now { self.new.last ≡ self.old.last }
        ensures room { self.new.later.capacity ≡ self.old.later.capacity }
        ensures below { (f : ℕ) → from ≤ f → last_below f self.new.cut self.new.later.items
            ≡ last_below f self.old.cut self.old.later.items }
    {
        'forget: while self.is_early(from) {
            self.forget_first();
        }
    }

    // Whether the first of the moments lies before this one.
    fn is_early(&self, from: u64) -> bool
        ensures { result ≡ starts_before from self.now.later.items }
    {
        match self.later.front() {
            Some(at) => *at < from,
            None => false,
        }
    }

    // Forgets the first of the moments, but as the latest of those that are old.
    fn forget_first(&mut self)
        requires { 0 < length self.old.later.items }
        ensures first { self.old.later.items ≡ self.new.cut ∷ self.new.later.items }
        ensures now { self.new.last ≡ self.old.last }
        ensures room { self.new.later.capacity ≡ self.old.later.capacity }
    {
        if let Some(at) = self.later.pop_front() {
            self.cut = at;
        }
    }
}
