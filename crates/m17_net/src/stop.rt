ghost use Rattle.std.specs.Prelude.{◌≡◌, true, false, IfOk};
ghost use Rattle.m17_net.specs.Stops.{LooksSo, no_stop};

use m17_values::NoMemory;
use std::alloc::Global;
use std::marker::Model;
use std::sync::Arc;
use std::sync::atomic::{AtomicBool, Ordering};

/// What ends an ear before its moment, where there is such a thing: a flag that is set once, and whether this ear has seen
/// that it is.
#[derive(Drop)]
pub struct Stop {
    flag: Option<Arc<AtomicBool, Global>>,
    seen: bool,
}

impl Model for Stop {
    ghost use Rattle.std.specs.Prelude.{◌≡◌, true, is_some};
    ghost use Rattle.m17_net.specs.Stops.{StopKept};

    ghost Value = { StopKept };

    ghost view = { λ s. record { there = is_some s.flag; seen = s.seen } };

    ghost invariant = { λ s. s.seen ≡ true → is_some s.flag ≡ true };
}

impl Stop {
    // Nothing ends the ear before its moment.
    pub(crate) fn none() -> Stop
        ensures { result ≡ no_stop }
    {
        Stop {
            flag: None,
            seen: false,
        }
    }

    /// The setting of this flag ends the ear: it sees that at its next call.
    pub fn at(flag: Arc<AtomicBool, Global>) -> Stop
        ensures { result ≡ record { there = true; seen = false } }
    {
        Stop {
            flag: Some(flag),
            seen: false,
        }
    }

    // The same for one more ear.
    pub(crate) fn share(&self) -> Result<Stop, NoMemory>
        ensures { IfOk result (λ s. s ≡ record { there = self.now.there; seen = false }) }
    {
        match &self.flag {
            Some(flag) => Ok(Stop::at(Arc::try_clone(flag)?)),
            None => Ok(Stop::none()),
        }
    }

    // Whether there is such a thing.
    pub(crate) fn is_there(&self) -> bool
        ensures { result ≡ self.now.there }
    {
        self.flag.is_some()
    }

    // Whether the flag is set, now or when it was looked at before.
    pub(crate) fn look(&mut self) -> bool
        ensures looked { LooksSo self.old result self.new }
    {
        if let Some(flag) = &self.flag
            && flag.load(Ordering::SeqCst)
        {
            self.seen = true;
        }
        self.seen
    }
}
