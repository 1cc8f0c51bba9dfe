ghost use Rattle.std.specs.Prelude.{◌≡◌, ◌≢◌, ℕ, ◌-◌, ◌^◌, ◌<◌, ◌≤◌, [], ◌∷◌};
ghost use Rattle.m17_io.specs.Faults.{HasRisen};
ghost use Rattle.m17_ports.specs.Told.{told_then, StartsEmpty};
ghost use Rattle.m17_ports.specs.Ear.{EndsPastCount};
ghost use Rattle.m17_port_memory.specs.Answers.{IsAnswered, faulty_told};

use m17_ports::Ear;
use m17_values::Heard;
use std::marker::Model;

/// An ear over another one, which fails at the calls that it was told to fail at.
#[derive(Drop)]
pub struct FaultyEar<E: Ear + Drop> {
    inner: E,
    fails: Vec<u64>,
    calls: u64,
    ends: u64,
    faults: u64,
}

impl<E: Ear + Drop> Model for FaultyEar<E> {
    ghost use Rattle.std.specs.Prelude.{◌≡◌, ◌-◌, ◌^◌, ◌<◌};
    ghost use Rattle.m17_port_memory.specs.Answers.{FaultyKept, IsInStep};

    ghost Value = { FaultyKept E };

    ghost view = { λ e. record {
      inner = e.inner;
      fails = e.fails.items;
      calls = e.calls;
      ends = e.ends;
      faults = e.faults;
    } };

    ghost invariant = { λ e. IsInStep e.fails.items e.calls (E.told e.inner).heard
        × (e.calls < 2 ^ 64 - 1 → e.ends ≡ 0) };
}

impl<E: Ear + Drop> FaultyEar<E> {
    ghost use Rattle.m17_port_memory.specs.Answers.{FaultyKept, IsInStep, new_ear};

    /// An ear over `inner`, of which nothing was heard. `fails` lists the numbers of calls of `hear`, from 0, that are
    /// to answer Fault and leave the inner ear alone; every other call is the inner one's. After 2^64 - 1 calls it
    /// answers End by itself.
    pub fn new(inner: E, fails: Vec<u64>) -> FaultyEar<E>
        requires unheard { StartsEmpty (E.told inner).heard }
        ensures made { result ≡ new_ear inner fails.items }
        ensures starts { StartsEmpty (faulty_told E.told result).heard }
        ensures faults { (faulty_told E.told result).faults ≡ (E.told inner).faults }
    {
        FaultyEar {
            inner,
            fails,
            calls: 0,
            ends: 0,
            faults: 0,
        }
    }

    // Answers the next call.
    fn next(&mut self) -> Heard
        ensures answered { IsAnswered E.told self.old result self.new }
        ensures in_step { IsInStep self.old.fails self.old.calls (E.told self.old.inner).heard }
        ensures ends_last { self.old.calls < 2 ^ 64 - 1 → self.old.ends ≡ 0 }
        ensures same_device { (E.told self.new.inner).device ≡ (E.told self.old.inner).device }
    {
        if self.calls == u64::MAX {
            self.ends = self.ends.saturating_add(1);
            return Heard::End;
        }
        let call = self.calls;
        if self.fails.contains(&call) {
            self.calls += 1;
            self.faults = self.faults.saturating_add(1);
            return Heard::Fault;
        }
        let heard = self.inner.hear();
        self.calls += 1;
        heard
    }
}

impl<E: Ear + Drop> Ear for FaultyEar<E> {
    ghost use Rattle.std.proofs.Math.Nat.{min-le_right};
    ghost use Rattle.std.specs.Prelude.{◌+◌};
    ghost use Rattle.m17_port_memory.specs.Answers.{unscripted-follows};

    type Label = E::Label;

    ghost told = { λ e. faulty_told E.told e };

    ghost faults_fit = { λ e. min-le_right (e.faults + (E.told e.inner).faults) (2 ^ 64 - 1) };

    ghost follows_script = { λ e. unscripted-follows (E.told e.inner).device.mark
        (faulty_told E.told e).heard };

    fn hear(&mut self) -> Heard
        // What this call answers: a Fault where it is listed, and else what the inner ear does.
        ensures answered { IsAnswered E.told self.old result self.new }

        ensures counted { (faulty_told E.told self.old).faults ≤ (faulty_told E.told self.new).faults }
        ensures fault { result ≡ Heard.Fault
            → HasRisen (faulty_told E.told self.old).faults (faulty_told E.told self.new).faults }
        ensures no_fault { result ≢ Heard.Fault
            → (faulty_told E.told self.new).faults ≡ (faulty_told E.told self.old).faults }
        ensures appended { (EndsPastCount (faulty_told E.told self.old).heard → ⊥)
            → (faulty_told E.told self.new).heard
            ≡ told_then (faulty_told E.told self.old).heard (result ∷ []) }
        ensures same_device { (E.told self.new.inner).device ≡ (E.told self.old.inner).device }
    {
        self.next()
    }
}
