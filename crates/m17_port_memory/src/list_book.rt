ghost use Rattle.std.specs.Prelude.{◌≡◌, ℕ, ◌+◌, ◌-◌, ◌^◌, ◌<◌, ◌≤◌, ◌↔◌, ◌⊎◌, min, length, take, ◌++◌, Contains, Some, IsErr, IsOk, IfOk, OnOk, OnErr};
ghost use Rattle.m17_io.specs.Faults.{HasCause};
ghost use Rattle.m17_ports.specs.Told.{told_then};

use m17_ports::Book;
use m17_values::{Failed, NoMemory};
use std::alloc::Global;
use std::marker::Model;

/// A book that keeps its bytes in memory, of a fixed room, which can be told to fail.
#[derive(Debug, Drop)]
pub struct ListBook {
    bytes: Vec<u8>,
    room: usize,
    fails: Vec<u64>,
    next_call: u64,
    faults: u64,
    number: u64,
}

impl Model for ListBook {
    ghost use Rattle.std.specs.Prelude.{◌≤◌, length, vec_capacity};
    ghost use Rattle.m17_port_memory.specs.Kept.{WrittenKept};

    ghost Value = { WrittenKept };

    ghost view = { λ b. record {
      written = b.bytes.items;
      room = b.room;
      next_call = b.next_call;
      fails = b.fails.items;
      faults = b.faults;
      number = b.number;
    } };

    ghost invariant = { λ b. (length b.bytes.items ≤ b.room) × (b.room ≤ vec_capacity b.bytes) };
}

impl ListBook {
    ghost use Rattle.m17_port_memory.specs.Kept.{WrittenKept, new_book};

    /// A book with room for `room` bytes, with nothing written. `fails` lists the numbers of calls of `write`, from 0,
    /// that are to fail; a write that would pass the room fails too. `NoMemory` where there is none for the room, and
    /// never for a room of 0.
    pub fn make(alloc: Global, room: usize, fails: Vec<u64>) -> Result<ListBook, NoMemory>
        ensures made { IfOk result (λ book. book ≡ new_book room fails.items 0) }
        ensures no_room { room ≡ 0 → IsOk result }
    {
        let bytes = Vec::with_capacity(alloc, room)?;
        Ok(ListBook {
            bytes,
            room,
            fails,
            next_call: 0,
            faults: 0,
            number: 0,
        })
    }

    /// The bytes written.
    pub fn bytes(&self) -> &[u8]
        ensures { result.now ≡ self.now.written }
    {
        &self.bytes
    }

    // The book as it was when it was new, with this number.
    pub(crate) fn renewed(self, number: u64) -> ListBook
        ensures { result ≡ new_book self.room self.fails number }
    {
        let mut book = self;
        book.bytes.clear();
        book.next_call = 0;
        book.faults = 0;
        book.number = number;
        book
    }
}

impl Book for ListBook {
    ghost use Rattle.std.proofs.Math.Nat.{min-le_right};
    ghost use Rattle.m17_port_memory.specs.Kept.{WrittenKept, fails_to_write, writes};
    ghost use Rattle.m17_port_memory.specs.Tells.{list_book_told};

    type Label = ();

    ghost told = { list_book_told };

    ghost faults_fit = { λ b. min-le_right b.faults (2 ^ 64 - 1) };

    fn write(&mut self, bytes: &[u8]) -> Result<(), Failed>
        ensures cause { HasCause (min self.old.faults (2 ^ 64 - 1))
            (min self.new.faults (2 ^ 64 - 1)) result }
        ensures appended { OnOk result
            (Some self.new.written ≡ told_then (Some self.old.written) bytes.now) }
        ensures prefix { OnErr result ((n : ℕ)
            × (Some self.new.written ≡ told_then (Some self.old.written) (take n bytes.now))) }

        // It fails exactly at the calls that were listed, and where the room does not suffice.
        ensures told_to_fail { IsErr result ↔ (Contains self.old.fails self.old.next_call
            ⊎ (self.old.room < length self.old.written + length bytes.now)) }

        // The call is counted, and so is its failure; the rest stays.
        ensures written { OnOk result (self.new ≡ writes self.old bytes.now) }
        ensures failed { OnErr result (self.new ≡ fails_to_write self.old) }
        ensures same_device { self.new.number ≡ self.old.number }
    {
        let call = self.next_call;
        self.next_call = self.next_call.saturating_add(1);
        if self.fails.contains(&call) || bytes.len() > self.room - self.bytes.len() {
            self.faults = self.faults.saturating_add(1);
            return Err(Failed);
        }
        match self.bytes.extend_from_slice(bytes) {
            Ok(()) => Ok(()),
            Err(_) => Err(Failed),
        }
    }
}
