ghost use Rattle.std.specs.Prelude.{◌≡◌, ℕ, Bool, ◌+◌, ◌<◌, ◌≤◌, ◌||◌, nat_lt, min, List, [], ◌++◌, length, take, drop, Option, None, Some, Ok, IfOk, OnOk, OnErr};
ghost use Rattle.m17_io.specs.Faults.{HasCause};
ghost use Rattle.m17_io.specs.Source.{Takes};
ghost use Rattle.m17_streams.specs.Buffered.{held_then};

use crate::BUFFER_BYTES;
use m17_io::Source;
use m17_values::{Failed, NoMemory};
use std::alloc::Global;
use std::marker::Model;

/// A source that reads ahead from the source below, so that one of its reads serves many of its own.
#[derive(Drop)]
pub struct BufferedSource<S: Source + Drop> {
    source: S,
    buffer: Vec<u8>,
    start: usize,
    end: usize,
}

impl<S: Source + Drop> Model for BufferedSource<S> {
    ghost use Rattle.std.specs.Prelude.{◌≡◌, ◌≤◌, length, slice_range};
    ghost use Rattle.m17_streams.specs.Buffered.{Buffered};

    ghost Value = { Buffered S };

    ghost view = { λ s. record {
      held = slice_range s.buffer.items s.start s.end;
      device = s.source;
    } };

    ghost invariant = { λ s. (s.start ≤ s.end) × (s.end ≤ length s.buffer.items)
        × (length s.buffer.items ≡ 65536) };
}

impl<S: Source + Drop> BufferedSource<S> {
    ghost use Rattle.m17_streams.specs.Buffered.{Buffered};

    /// A source over `source`, with nothing read ahead. `NoMemory` where there is none for its buffer of
    /// `BUFFER_BYTES` bytes.
    pub fn make(alloc: Global, source: S) -> Result<BufferedSource<S>, NoMemory>
        ensures { IfOk result (λ made. made ≡ record { held = []; device = source }) }
    {
        let buffer = vec![in alloc; 0u8; BUFFER_BYTES]?;
        Ok(BufferedSource {
            source,
            buffer,
            start: 0,
            end: 0,
        })
    }

    // Reads once from below into the buffer, which is empty.
    fn refill(&mut self) -> Result<(), Failed>
        requires { self.old.held ≡ [] }
        ensures cause { HasCause (S.told self.old.device).faults (S.told self.new.device).faults result }
        ensures more { OnOk result ((bytes : List ℕ) → (S.told self.old.device).left ≡ Some bytes
            → (held_then self.new.held (S.told self.new.device).left ≡ Some bytes)
            × (self.new.held ≡ [] → bytes ≡ [])) }
        ensures kept { OnErr result ((self.new.held ≡ [])
            × ((S.told self.new.device).left ≡ (S.told self.old.device).left)) }
    {
        self.start = 0;
        self.end = 0;
        let n = self.source.read(&mut self.buffer)?;
        self.end = n;
        Ok(())
    }

    // Takes from the buffer what there is room for.
    fn take_held(&mut self, into: &mut [u8]) -> usize
        ensures count { result ≡ min (length into.old) (length self.old.held) }
        ensures filled { into.new ≡ take result self.old.held ++ drop result into.old }
        ensures held { self.new.held ≡ drop result self.old.held }
        ensures device { self.new.device ≡ self.old.device }
    {
        let held = &self.buffer[self.start..self.end];
        let n = into.len().min(held.len());
        into[..n].copy_from_slice(&held[..n]);
        self.start += n;
        n
    }
}

impl<S: Source + Drop> Source for BufferedSource<S> {
    ghost told = { λ b. record {
      left = held_then b.held (S.told b.device).left;
      at_hand = nat_lt 0 (length b.held) || (S.told b.device).at_hand;
      faults = (S.told b.device).faults;
    } };

    ghost faults_fit = { λ b. S.faults_fit b.device };

    fn read(&mut self, into: &mut [u8]) -> Result<usize, Failed>
        ensures cause { HasCause (S.told self.old.device).faults (S.told self.new.device).faults result }
        ensures within { IfOk result (λ n. n ≤ length into.old) }
        ensures taken { IfOk result (λ n. (bytes : List ℕ)
            → held_then self.old.held (S.told self.old.device).left ≡ Some bytes
            → Takes bytes n into.old into.new (held_then self.new.held (S.told self.new.device).left)) }
        ensures nothing_taken { OnErr result (held_then self.new.held (S.told self.new.device).left
            ≡ held_then self.old.held (S.told self.old.device).left) }

        // While bytes are held the source below is asked for none, so that the read does not wait.
        ensures held_first { 0 < length self.old.held → self.new.device ≡ self.old.device }

        // Nor is it for a buffer without room, which always succeeds.
        ensures no_room { length into.old ≡ 0
            → (result ≡ Ok 0) × (self.new.device ≡ self.old.device) }
    {
        if self.start < self.end || into.is_empty() {
            return Ok(self.take_held(into));
        }
        self.refill()?;
        Ok(self.take_held(into))
    }

    #[inline]
    fn is_at_hand(&self) -> bool {
        self.start < self.end || self.source.is_at_hand()
    }
}
