ghost use Rattle.std.specs.Prelude.{◌≡◌, ℕ, ◌-◌, ◌/◌, ◌^◌, min, List, [], ◌∷◌, Option};
ghost use Rattle.std.specs.Time.{instant_nanos};
ghost use Rattle.m17_ports.specs.Told.{told_then};

use std::time::{Clock, Instant};

/// A clock, as a pace uses it.
pub trait Stopwatch {
    /// What its readings gave so far, where the clock tells that.
    ghost answers: { Self → Option (List (Option ℕ)) };

    /// Reads the moment that it is now, in milliseconds since some moment before, or nothing where
    /// the clock failed.
    fn read(&mut self) -> Option<u64>
        ensures { answers self.new ≡ told_then (answers self.old) (result ∷ []) };
}

/// A clock of std, whose moments are counted from its first reading.
#[derive(Clone, Copy, Debug)]
pub struct PaceClock<C> {
    clock: C,
    start: Option<Instant>,
}

impl<C: Clock> PaceClock<C> {
    /// The clock, which was not read yet.
    pub fn new(clock: C) -> PaceClock<C> {
        PaceClock { clock, start: None }
    }
}

// The trusted edge: one call of the clock, which tells no content.
impl<C: Clock> Stopwatch for PaceClock<C> {
    ghost use Rattle.std.specs.Prelude.{None};

    ghost answers = { λ _. None };

    fn read(&mut self) -> Option<u64> {
        let now = Instant::now(&self.clock).ok()?;
        let start = self.start.unwrap_or(now);
        self.start = Some(start);
        Some(millis_between(start, now))
    }
}

/// The whole milliseconds between two instants.
fn millis_between(start: Instant, now: Instant) -> u64
    ensures { result ≡ min ((instant_nanos now - instant_nanos start) / 1_000_000) (2 ^ 64 - 1) }
{
    u64::try_from(now.duration_since(start).as_millis()).unwrap_or(u64::MAX)
}
