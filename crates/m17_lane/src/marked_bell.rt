//! A bell whose lanes have marks, each one of its own.
ghost use Rattle.std.specs.Prelude.{◌≡◌, ◌+◌, ◌^◌, ◌<◌, IfOk};
ghost use Rattle.m17_lane.specs.Ends.{new_popper, new_pusher, new_pushers};

use crate::{Bell, Popper, Pusher, make_marked, make_one_marked};
use m17_values::NoMemory;
use std::alloc::Global;

/// A bell with marks, and how many lanes it has so far. A lane's mark is the number of lanes before it, so that no two share
/// one.
#[derive(Drop)]
pub struct MarkedBell {
    bell: Bell,
    /// How many lanes there are to be, each with a mark.
    pub lanes: u32,
    /// How many were laid.
    pub laid: u32,
}

impl MarkedBell {
    /// A bell for this number of lanes, of which none is laid.
    pub fn make(alloc: Global, lanes: u32) -> Result<MarkedBell, NoMemory>
        ensures { IfOk result (λ bell. (bell.lanes ≡ lanes) × (bell.laid ≡ 0)) }
    {
        let bell = Bell::make_marked(alloc, lanes)?;
        Ok(MarkedBell {
            bell,
            lanes,
            laid: 0,
        })
    }

    /// Lays a lane of one producer with this mark, which has to be the next one.
    pub fn lay_one<T: Drop>(
        &mut self,
        alloc: Global,
        mark: u32,
        capacity: u32,
    ) -> Result<(Pusher<T>, Popper<T>), NoMemory>
        requires next { mark ≡ self.old.laid }
        requires fits { mark + 1 < 2 ^ 32 }
        requires capacity { 0 < capacity }
        ensures popper { IfOk result (λ r. r.1 ≡ new_popper r.1.lane capacity 1) }
        ensures pusher { IfOk result (λ r. r.0 ≡ new_pusher r.1 0) }
        ensures laid { self.new.laid ≡ self.old.laid + 1 }
        ensures lanes { self.new.lanes ≡ self.old.lanes }
    {
        self.laid += 1;
        make_one_marked(alloc, &self.bell, mark, capacity)
    }

    /// Lays a lane of this number of producers with this mark, which has to be the next one.
    pub fn lay<T: Drop>(
        &mut self,
        alloc: Global,
        mark: u32,
        producers: u32,
        capacity: u32,
    ) -> Result<(Vec<Pusher<T>>, Popper<T>), NoMemory>
        requires next { mark ≡ self.old.laid }
        requires fits { mark + 1 < 2 ^ 32 }
        requires producers { 0 < producers }
        requires capacity { 0 < capacity }
        ensures popper { IfOk result (λ r. r.1 ≡ new_popper r.1.lane capacity producers) }
        ensures pushers { IfOk result (λ r. r.0.items ≡ new_pushers r.1 producers) }
        ensures laid { self.new.laid ≡ self.old.laid + 1 }
        ensures lanes { self.new.lanes ≡ self.old.lanes }
    {
        self.laid += 1;
        make_marked(alloc, &self.bell, mark, producers, capacity)
    }

    /// The bell, when all its lanes are laid.
    pub fn into_bell(self) -> Bell
        requires all { self.laid ≡ self.lanes }
    {
        let MarkedBell {
            bell,
            lanes: _,
            laid: _,
        } = self;
        bell
    }
}
