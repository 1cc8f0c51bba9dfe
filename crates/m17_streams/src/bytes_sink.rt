ghost use Rattle.std.specs.Prelude.{◌≡◌, ℕ, ◌+◌, ◌-◌, ◌^◌, ◌<◌, ◌≤◌, ◌↔◌, ◌⊎◌, min, length, take, [], ◌++◌, List, Option, Some, Contains, IsOk, IsErr, OnOk, IfOk, OnErr};
ghost use Rattle.m17_io.specs.Faults.{HasCause};
ghost use Rattle.m17_io.specs.Sink.{AppendsPrefix};

use m17_io::Sink;
use m17_values::{Failed, NoMemory};
use std::alloc::Global;
use std::marker::Model;

/// A sink that keeps its bytes in memory, of a fixed room, which can be told to fail.
#[derive(Debug, Drop)]
pub struct BytesSink {
    bytes: Vec<u8>,
    room: usize,
    fails: Vec<u64>,
    next_call: u64,
    faults: u64,
}

impl Model for BytesSink {
    ghost use Rattle.std.specs.Prelude.{◌≤◌, length, vec_capacity};
    ghost use Rattle.m17_streams.specs.Memory.{BytesKept};

    ghost Value = { BytesKept };

    ghost view = { λ s. record {
      written = s.bytes.items;
      room = s.room;
      next_call = s.next_call;
      fails = s.fails.items;
      faults = s.faults;
    } };

    ghost invariant = { λ s. (length s.bytes.items ≤ s.room) × (s.room ≤ vec_capacity s.bytes) };
}

impl BytesSink {
    ghost use Rattle.m17_streams.specs.Memory.{BytesKept};

    /// A sink of this room, in bytes, with nothing written. `fails` lists the numbers of calls of `write` and `flush`,
    /// from 0, that are to fail. A write that would pass the room fails too. `NoMemory` where there is no memory for
    /// the room, and never for a room of 0.
    pub fn make(alloc: Global, room: usize, fails: Vec<u64>) -> Result<BytesSink, NoMemory>
        ensures made { IfOk result (λ sink. sink ≡ record {
          written = [];
          room = room;
          next_call = 0;
          fails = fails.items;
          faults = 0;
        }) }
        ensures no_room { room ≡ 0 → IsOk result }
    {
        let bytes = Vec::with_capacity(alloc, room)?;
        Ok(BytesSink {
            bytes,
            room,
            fails,
            next_call: 0,
            faults: 0,
        })
    }

    /// The bytes written.
    pub fn bytes(&self) -> &[u8]
        ensures { result.now ≡ self.now.written }
    {
        &self.bytes
    }
}

impl Sink for BytesSink {
    ghost use Rattle.std.proofs.Math.Nat.{min-le_right};

    ghost told = { λ s. record {
      written = Some s.written;
      held_back = 0;
      faults = min s.faults (2 ^ 64 - 1);
    } };

    ghost faults_fit = { λ s. min-le_right s.faults (2 ^ 64 - 1) };

    fn write(&mut self, bytes: &[u8]) -> Result<(), Failed>
        ensures cause { HasCause (min self.old.faults (2 ^ 64 - 1))
            (min self.new.faults (2 ^ 64 - 1)) result }
        ensures ok { OnOk result ((before : List ℕ) → Some self.old.written ≡ Some before
            → Some self.new.written ≡ Some (before ++ bytes.now)) }
        ensures err { OnErr result ((before : List ℕ) → Some self.old.written ≡ Some before
            → AppendsPrefix before bytes.now (Some self.new.written)) }

        // It fails exactly at the calls that were listed and where the room does not suffice, and then appends nothing.
        ensures told_to_fail { IsErr result ↔ (Contains self.old.fails self.old.next_call
            ⊎ (self.old.room < length self.old.written + length bytes.now)) }
        ensures nothing_appended { OnErr result (self.new.written ≡ self.old.written) }

        // The call is counted, and so is its failure.
        ensures calls_counted { self.new.next_call ≡ min (self.old.next_call + 1) (2 ^ 64 - 1) }
        ensures one_fault { OnErr result (self.new.faults
            ≡ min (self.old.faults + 1) (2 ^ 64 - 1)) }
        ensures no_fault { OnOk result (self.new.faults ≡ self.old.faults) }
        ensures same { (self.new.fails ≡ self.old.fails) × (self.new.room ≡ self.old.room) }
    {
        let call = self.next_call;
        self.next_call = self.next_call.saturating_add(1);
        if self.fails.contains(&call) || bytes.len() > self.room - self.bytes.len() {
            self.faults = self.faults.saturating_add(1);
            return Err(Failed);
        }
        match self.bytes.extend_from_slice(bytes) {
            Ok(()) => Ok(()),
            Err(_) => Err(Failed),
        }
    }

    fn flush(&mut self) -> Result<(), Failed>
        ensures cause { HasCause (min self.old.faults (2 ^ 64 - 1))
            (min self.new.faults (2 ^ 64 - 1)) result }
        ensures same { Some self.new.written ≡ Some self.old.written }
        ensures told_to_fail { IsErr result ↔ Contains self.old.fails self.old.next_call }
        ensures calls_counted { self.new.next_call ≡ min (self.old.next_call + 1) (2 ^ 64 - 1) }
        ensures one_fault { OnErr result (self.new.faults
            ≡ min (self.old.faults + 1) (2 ^ 64 - 1)) }
        ensures no_fault { OnOk result (self.new.faults ≡ self.old.faults) }
        ensures same_list { (self.new.fails ≡ self.old.fails) × (self.new.room ≡ self.old.room) }
    {
        let call = self.next_call;
        self.next_call = self.next_call.saturating_add(1);
        if self.fails.contains(&call) {
            self.faults = self.faults.saturating_add(1);
            return Err(Failed);
        }
        Ok(())
    }
}
