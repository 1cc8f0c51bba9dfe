ghost use Rattle.std.specs.Prelude.{◌≡◌, ◌-◌, ℕ, [], IfOk, IfSome, is_some, nat_lt};
ghost use Rattle.m17_ports.specs.Ear.{IsNewEar};
ghost use Rattle.m17_ports.specs.Told.{StartsEmpty};
ghost use Rattle.m17_decorators.specs.Guarded.{guard_told};
ghost use Rattle.m17_decorators.specs.GuardMemory.{IsWhole, Remembers};

use crate::Guarded;
use crate::memory::Memory;
use m17_ports::Ear;
use m17_values::NoMemory;
use std::alloc::Global;
use std::hash::RandomState;
use std::marker::Model;

/// Guards for the ears of so many links, with all the memory that these need. Contracts see for how
/// many links they are left.
#[derive(Drop)]
pub struct Guards {
    memories: Vec<Memory>,
}

impl Model for Guards {
    ghost use Rattle.std.specs.Prelude.{ℕ, length};
    ghost use Rattle.m17_decorators.specs.GuardMemory.{AreNew};

    ghost Value = { ℕ };

    ghost view = { λ guards. length guards.memories.items };

    ghost invariant = { λ guards. AreNew guards.memories.items };
}

impl Guards {
    /// Guards for this many links. `keys` are those by which they look for what they have heard, and
    /// should be drawn: a stranger who knew them could make them slow.
    pub fn make(alloc: Global, keys: RandomState, links: usize) -> Result<Guards, NoMemory>
        ensures { IfOk result (λ guards. guards ≡ links) }
    {
        let mut memories = Vec::new(alloc);
        'take: while memories.len() < links {
            memories.push(Memory::make(alloc, keys)?)?;
        }
        Ok(Guards { memories })
    }

    /// No guard at all: each ear is behind one that is off. It takes no memory.
    pub fn none(alloc: Global) -> Guards
        ensures { result ≡ 0 }
    {
        Guards {
            memories: Vec::new(alloc),
        }
    }

    /// The ear of the next link behind its guard, which is on while one is left. It takes no memory.
    pub fn before<E: Ear + Drop>(&mut self, ear: E) -> Guarded<E>
        requires unheard { StartsEmpty (E.told ear).heard }
        ensures guard { result ≡ record { inner = ear; is_on = nat_lt 0 self.old } }
        ensures left { self.new ≡ self.old - 1 }
        // A new ear is a new one still.
        ensures new { (call : ℕ) → IsNewEar call (E.told ear)
            → IsNewEar call (guard_told E.told result) }
    {
        Guarded::with_some(ear, self.next())
    }

    // The memory of the next guard, while one is left.
    fn next(&mut self) -> Option<Memory>
        ensures new { IfSome result (λ m. IsWhole m × Remembers m []) }
        ensures is_on { is_some result ≡ nat_lt 0 self.old }
        ensures left { self.new ≡ self.old - 1 }
    {
        self.memories.pop()
    }
}
