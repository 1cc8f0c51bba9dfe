ghost use Rattle.std.specs.Prelude.{◌≡◌, ◌+◌, ◌-◌, ◌^◌, ◌<◌, ◌≤◌, ◌↔◌, List, [], ◌∷◌, Some, OnOk, OnErr, Contains, IsSome};
ghost use Rattle.m17_io.specs.Faults.{HasCause};
ghost use Rattle.m17_values.specs.declared.peer.Peer.{Peer};
ghost use Rattle.m17_ports.specs.Told.{told_then};
ghost use Rattle.m17_ports.specs.Tallies.{IsTallied};
ghost use Rattle.m17_decorators.specs.Paced.{HasLet, HasPaced, is_counted, pace_told};
ghost use Rattle.m17_decorators.specs.PaceMemory.{IsPacing};

use crate::clock::Stopwatch;
use crate::frame::is_frame;
use crate::pace::Pace;
use m17_ports::Mouth;
use m17_values::{Failed, Peer};
use std::marker::Model;

/// The label of a mouth behind a pace. It is for contracts alone.
pub struct PaceLabel<L> {
    /// How many stream packets may pass to one peer in any second; 0 for no bound.
    pub most: usize,
    /// For how many peers at a time there is room.
    pub places: usize,
    /// The label of the mouth behind it.
    pub inner: L,
}

/// A mouth behind a pace. To one peer it lets through at most so many stream packets in any second,
/// by the moments that its clock tells, and all other datagrams. What is over fails, is counted as a
/// fault, and nothing is said.
#[derive(Drop)]
pub struct Paced<M, C> {
    inner: M,
    clock: C,
    most: usize,
    memory: Option<Pace>,
    refused: u64,
}

impl<M, C> Model for Paced<M, C> {
    ghost use Rattle.m17_decorators.specs.Paced.{PaceSeen};

    ghost Value = { PaceSeen M C };

    ghost use Rattle.m17_decorators.specs.PaceMemory.{IsPacing};

    ghost view = { λ p. record {
      inner = p.inner;
      clock = p.clock;
      most = p.most;
      memory = p.memory;
      refused = p.refused;
    } };

    ghost invariant = { λ p. IsPacing p.most p.memory };
}

impl<M: Mouth + Drop, C: Stopwatch + Drop> Paced<M, C> {
    ghost use Rattle.m17_decorators.specs.Paced.{PaceSeen};

    // The mouth behind this pace, if there is one.
    pub(crate) fn with(inner: M, clock: C, most: usize, memory: Option<Pace>) -> Paced<M, C>
        requires { IsPacing most memory }
        ensures { result ≡ record {
          inner = inner;
          clock = clock;
          most = most;
          memory = memory;
          refused = 0;
        } }
    {
        Paced {
            inner,
            clock,
            most,
            memory,
            refused: 0,
        }
    }

    /// The mouth behind it.
    pub fn inner(&self) -> &M
        ensures { result.now ≡ self.now.inner }
    {
        &self.inner
    }

    /// The mouth.
    pub fn into_inner(self) -> M
        ensures { result ≡ self.inner }
    {
        self.inner
    }

    // Whether these are the bytes of a datagram that counts.
    fn counts(&self, bytes: &[u8]) -> bool
        ensures { result ≡ is_counted self.now.most bytes.now }
    {
        self.most > 0 && is_frame(bytes)
    }

    // Whether a frame to this peer passes. One for which there is no place does not.
    fn lets(&mut self, to: &Peer) -> bool
        requires { 0 < self.old.most }
        ensures { HasLet C.answers self.old self.new to.now result }
    {
        match &mut self.memory {
            Some(pace) => pace.passes(&mut self.clock, to).1,
            None => false,
        }
    }
}

impl<M: Mouth + Drop, C: Stopwatch + Drop> Mouth for Paced<M, C> {
    ghost use Rattle.std.proofs.Math.Nat.{min-le_right};
    ghost use Rattle.m17_decorators.specs.Paced.{PaceSeen};

    type Label = PaceLabel<M::Label>;

    ghost told = { λ paced. pace_told M.told paced };

    ghost faults_fit = { λ paced.
        min-le_right ((M.told paced.inner).faults + paced.refused) (2 ^ 64 - 1) };

    ghost tells_named = { λ paced. M.tells_named paced.inner };

    fn say(&mut self, to: &Peer, bytes: &[u8]) -> Result<(), Failed>
        ensures cause { HasCause (pace_told M.told self.old).faults
            (pace_told M.told self.new).faults result }
        ensures appended { OnOk result ((M.told self.new.inner).said
            ≡ told_then (M.told self.old.inner).said ((to.now, bytes.now) ∷ [])) }
        ensures tallied { OnOk result (IsTallied (M.told self.old.inner).tallies to.now bytes.now
            (M.told self.new.inner).tallies) }
        ensures nothing_appended { OnErr result
            ((M.told self.new.inner).said ≡ (M.told self.old.inner).said) }
        ensures nothing_tallied { OnErr result
            ((M.told self.new.inner).tallies ≡ (M.told self.old.inner).tallies) }
        ensures same_device { (pace_told M.told self.new).device
            ≡ (pace_told M.told self.old).device }

        // By which rule it passed, or failed.
        ensures paced { HasPaced M.told C.answers self.old self.new to.now bytes.now result }
    {
        if !self.counts(bytes) {
            return self.inner.say(to, bytes);
        }
        if self.lets(to) {
            return self.inner.say(to, bytes);
        }
        self.refused = self.refused.saturating_add(1);
        Err(Failed)
    }
}
