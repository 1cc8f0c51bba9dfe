ghost use Rattle.std.specs.Prelude.{◌≡◌, ℕ, List, Option};
ghost use Rattle.std.specs.declared.time.Instant.{Instant};
ghost use Rattle.m17_net.specs.Moments.{TellsReading};
ghost use Rattle.m17_net.specs.Wire.{CountsError};

use std::time::{Clock, Duration, Instant};
use std::{io, thread};

/// A clock, as an ear uses it: each clock of std is one.
pub trait Timer {
    /// The instants that its readings gave so far, where the clock tells them.
    ghost readings: { Self → Option (List Instant) };

    /// How often a reading gave an error, where the clock tells that.
    ghost unread: { Self → Option ℕ };

    /// Reads the instant that it is now.
    fn read(&mut self) -> io::Result<Instant>
        ensures told { TellsReading result (readings self.old) (readings self.new) }
        ensures unread { CountsError result (unread self.old) (unread self.new) };

    /// Rests for as long as this.
    fn rest(&self, pause: Duration);
}

// The trusted edge: one call of the clock each, which tells no content.
impl<C: Clock> Timer for C {
    ghost use Rattle.std.specs.Prelude.{None};

    ghost readings = { λ _. None };

    ghost unread = { λ _. None };

    fn read(&mut self) -> io::Result<Instant> {
        Instant::now(self)
    }

    fn rest(&self, pause: Duration) {
        thread::sleep(self, pause);
    }
}
