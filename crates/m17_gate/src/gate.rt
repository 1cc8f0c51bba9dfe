ghost use Rattle.std.specs.Prelude.{◌≡◌, ◌≢◌, ◌≤◌, [], ◌∷◌, IfOk};
ghost use Rattle.m17_io.specs.Faults.{HasRisen};
ghost use Rattle.m17_ports.specs.Told.{told_then};
ghost use Rattle.m17_ports.specs.Ear.{EndsPastCount};
ghost use Rattle.m17_gate.specs.Gated.{gate_told, gated_entry};

use crate::{QuickRules, Rules};
use m17_ports::Ear;
use m17_values::{Heard, NoMemory};
use std::alloc::Global;
use std::marker::Model;

/// The label of an ear behind a gate. It is for contracts alone.
pub struct GateLabel<L> {
    /// The rules of the gate.
    pub rules: Rules,
    /// The label of the ear behind it.
    pub inner: L,
}

/// An ear behind rules of callsigns. It tells what the ear does, but in place of a CONN, a LSTN
/// or a stream packet that is not allowed, that nothing came until its moment: there is no answer
/// to what is denied.
#[derive(Drop)]
pub struct Gate<E> {
    inner: E,
    rules: QuickRules,
}

impl<E> Model for Gate<E> {
    ghost use Rattle.m17_gate.specs.Gated.{GateSeen};

    ghost Value = { GateSeen E };

    ghost view = { λ gate. record { inner = gate.inner; rules = gate.rules } };
}

impl<E: Ear + Drop> Gate<E> {
    ghost use Rattle.m17_gate.specs.Gated.{GateSeen};

    /// The ear behind these rules. After NoMemory it is dropped.
    pub fn make(alloc: Global, inner: E, rules: &Rules) -> Result<Gate<E>, NoMemory>
        ensures { IfOk result (λ gate. gate ≡ record { inner = inner; rules = rules.now }) }
    {
        let rules = QuickRules::make(alloc, rules)?;
        Ok(Gate::with(inner, rules))
    }

    /// The same where the rules were made for a gate already: it takes no memory, and cannot fail.
    pub fn with(inner: E, rules: QuickRules) -> Gate<E>
        ensures { result ≡ record { inner = inner; rules = rules } }
    {
        Gate { inner, rules }
    }

    /// The ear.
    pub fn into_inner(self) -> E
        ensures { result ≡ self.inner }
    {
        self.inner
    }

    // What the gate makes of an entry.
    fn pass(&mut self, heard: Heard) -> Heard
        ensures gated { result ≡ gated_entry self.old.rules heard }
        ensures same { self.new ≡ self.old }
    {
        if let Heard::Datagram { at, bytes, .. } = &heard {
            if self.rules.denies(bytes.bytes()) {
                return Heard::Quiet { at: *at };
            }
        }
        heard
    }
}

impl<E: Ear + Drop> Ear for Gate<E> {
    ghost use Rattle.m17_gate.specs.Gated.{gate-follows};

    type Label = GateLabel<E::Label>;

    ghost told = { λ gate. gate_told E.told gate };

    ghost faults_fit = { λ gate. E.faults_fit gate.inner };

    ghost follows_script = { λ gate. gate-follows gate.rules (E.told gate.inner).device.mark
        (E.told gate.inner).heard (E.follows_script gate.inner) };

    fn hear(&mut self) -> Heard {
        let heard = self.inner.hear();
        self.pass(heard)
    }
}
