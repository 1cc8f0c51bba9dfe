ghost use Rattle.std.specs.Prelude.{◌≡◌, ◌≢◌, ◌≤◌, ◌↔◌, List, [], ◌∷◌, IfOk, IfSome, is_some, true, false};
ghost use Rattle.m17_io.specs.Faults.{HasRisen};
ghost use Rattle.m17_ports.specs.Told.{told_then, StartsEmpty};
ghost use Rattle.m17_ports.specs.Ear.{EndsPastCount};
ghost use Rattle.m17_values.specs.declared.heard.Heard.{Heard};
ghost use Rattle.m17_decorators.specs.Guarded.{guard_told, guarded_entry};
ghost use Rattle.m17_decorators.specs.GuardMemory.{IsWhole, Remembers};

use crate::memory::Memory;
use m17_ports::Ear;
use m17_values::{Heard, NoMemory};
use std::alloc::Global;
use std::hash::RandomState;
use std::marker::Model;

/// The label of an ear behind a guard. It is for contracts alone.
pub struct GuardLabel<L> {
    /// Whether the guard is on.
    pub is_on: bool,
    /// The label of the ear behind it.
    pub inner: L,
}

/// An ear behind a guard against echoes. It tells what the ear does, but in place of an echo, that
/// nothing came until its moment. A guard that is off leaves all as it is, and has no memory.
#[derive(Drop)]
pub struct Guarded<E: Ear + Drop> {
    inner: E,
    memory: Option<Memory>,
}

impl<E: Ear + Drop> Model for Guarded<E> {
    ghost use Rattle.std.specs.Prelude.{is_some};
    ghost use Rattle.m17_decorators.specs.Guarded.{GuardSeen};

    ghost Value = { GuardSeen E };

    ghost use Rattle.m17_decorators.specs.GuardMemory.{IsInStep};

    ghost view = { λ guard. record { inner = guard.inner; is_on = is_some guard.memory } };

    ghost invariant = { λ guard. IsInStep guard.memory (E.told guard.inner).heard };
}

impl<E: Ear + Drop> Guarded<E> {
    ghost use Rattle.m17_decorators.specs.Guarded.{GuardSeen};
    ghost use Rattle.m17_decorators.specs.GuardMemory.{IsWhole, Remembers};

    /// The ear behind a guard that is on; nothing was heard of it. `keys` are those by which the
    /// guard looks for what it has heard, and should be drawn: a stranger who knew them could make
    /// it slow. It takes all the memory that it will need. After NoMemory the ear is dropped.
    pub fn make(alloc: Global, inner: E, keys: RandomState) -> Result<Guarded<E>, NoMemory>
        requires unheard { StartsEmpty (E.told inner).heard }
        ensures { IfOk result (λ guard. guard ≡ record { inner = inner; is_on = true }) }
    {
        let memory = Memory::make(alloc, keys)?;
        Ok(Guarded::with(inner, memory))
    }

    // The same with a memory of nothing that was made before.
    pub(crate) fn with(inner: E, memory: Memory) -> Guarded<E>
        requires unheard { StartsEmpty (E.told inner).heard }
        requires whole { IsWhole memory }
        requires empty { Remembers memory [] }
        ensures { result ≡ record { inner = inner; is_on = true } }
    {
        Guarded {
            inner,
            memory: Some(memory),
        }
    }

    /// The ear with a guard that is off.
    pub fn off(inner: E) -> Guarded<E>
        ensures { result ≡ record { inner = inner; is_on = false } }
    {
        Guarded {
            inner,
            memory: None,
        }
    }

    // The ear with a guard that is on where there is a memory for it.
    pub(crate) fn with_some(inner: E, memory: Option<Memory>) -> Guarded<E>
        requires unheard { StartsEmpty (E.told inner).heard }
        requires new { IfSome memory (λ m. IsWhole m × Remembers m []) }
        ensures { result ≡ record { inner = inner; is_on = is_some memory } }
    {
        match memory {
            Some(memory) => Guarded::with(inner, memory),
            None => Guarded::off(inner),
        }
    }

    /// The ear.
    pub fn into_inner(self) -> E
        ensures { result ≡ self.inner }
    {
        self.inner
    }
}

impl<E: Ear + Drop> Ear for Guarded<E> {
    ghost use Rattle.m17_decorators.specs.Follows.{guard-follows};

    type Label = GuardLabel<E::Label>;

    ghost told = { λ guard. guard_told E.told guard };

    ghost faults_fit = { λ guard. E.faults_fit guard.inner };

    ghost follows_script = { λ guard. guard-follows guard.is_on (E.told guard.inner).device.mark
        (E.told guard.inner).heard (E.follows_script guard.inner) };

    fn hear(&mut self) -> Heard {
        match &mut self.memory {
            None => self.inner.hear(),
            Some(memory) => {
                if memory.is_over() {
                    return Heard::End;
                }
                let heard = self.inner.hear();
                pass(memory, heard)
            }
        }
    }
}

// What the guard makes of an entry.
fn pass(memory: &mut Memory, heard: Heard) -> Heard
    requires { IsWhole memory.old }
    ensures whole { IsWhole memory.new }
    ensures fault { (result ≡ Heard.Fault) ↔ (heard ≡ Heard.Fault) }
    ensures guarded { (past : List Heard) → Remembers memory.old past
        → result ≡ guarded_entry past heard }
    ensures remembers { (past : List Heard) → Remembers memory.old past
        → Remembers memory.new (heard ∷ past) }
{
    if !memory.hear(&heard) {
        return heard;
    }
    match heard {
        Heard::Datagram { at, .. } => Heard::Quiet { at },
        other => other,
    }
}
