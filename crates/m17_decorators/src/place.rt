ghost use Rattle.std.specs.Prelude.{◌≡◌, ◌==◌, [], IfOk, None};
ghost use Rattle.circular_buffer.specs.Buffer.{buffer};
ghost use Rattle.m17_decorators.specs.PaceMemory.{holds, is_idle, is_spent, newer, renewed, stamped};

use crate::frame::same_peer;
use circular_buffer::HeapCircularBuffer;
use m17_values::{NoMemory, Peer};
use std::alloc::Global;

// A peer, and of its last frames, the latest first, the moment that was the latest when each passed.
#[derive(Drop)]
pub(crate) struct Place {
    pub(crate) peer: Option<Peer>,
    pub(crate) stamps: HeapCircularBuffer<u64>,
}

impl Place {
    // A place of nobody, with room for so many frames.
    pub(crate) fn make(alloc: Global, most: usize) -> Result<Place, NoMemory>
        ensures { IfOk result (λ p. p ≡ record { peer = None; stamps = buffer [] most }) }
    {
        let stamps = HeapCircularBuffer::with_capacity(alloc, most)?;
        Ok(Place { peer: None, stamps })
    }

    // Whether it is this peer's.
    pub(crate) fn is_of(&self, peer: &Peer) -> bool
        ensures { result ≡ holds peer.now self.now.peer }
    {
        match &self.peer {
            Some(other) => same_peer(peer, other),
            None => false,
        }
    }

    // Whether nobody counts here: it is nobody's, or none of its frames passed after this moment was
    // told.
    pub(crate) fn is_idle(&self, cut: u64) -> bool
        ensures { result ≡ is_idle cut self.now }
    {
        match &self.peer {
            Some(_) => self.is_quiet(cut),
            None => true,
        }
    }

    // Whether none of its frames passed after this moment was told.
    fn is_quiet(&self, cut: u64) -> bool
        ensures { result ≡ (newer cut self.now.stamps.items == 0) }
    {
        match self.stamps.front() {
            Some(latest) => *latest < cut,
            None => true,
        }
    }

    // Whether as many frames as it has room for passed after that.
    pub(crate) fn is_spent(&self, cut: u64) -> bool
        ensures { result ≡ is_spent cut self.now }
    {
        if !self.stamps.is_full() {
            return false;
        }
        match self.stamps.back() {
            Some(oldest) => *oldest >= cut,
            None => false,
        }
    }

    // Whether so many frames passed since this moment, the latest one, was told.
    pub(crate) fn has_passed(&self, count: usize, now: u64) -> bool {
        match count.checked_sub(1) {
            Some(place) => match self.stamps.get(place) {
                Some(stamp) => *stamp == now,
                None => false,
            },
            None => true,
        }
    }

    // It is this peer's from now on, and a frame to it passed.
    pub(crate) fn renew(&mut self, peer: &Peer, now: u64)
        ensures { self.new ≡ renewed self.old peer.now now }
    {
        self.peer = Some(*peer);
        self.stamps.clear();
        self.stamps.push_front(now);
    }

    // A frame passed.
    pub(crate) fn stamp(&mut self, now: u64)
        ensures { self.new ≡ stamped self.old now }
    {
        self.stamps.push_front(now);
    }
}
