ghost use Rattle.std.specs.Prelude.{◌≡◌, ℕ, ◌+◌, ◌-◌, ◌^◌, ◌<◌, ◌≤◌, min, length, take, ◌++◌, Option, None, Some, IsErr, IsOk, IfOk, OnOk, OnErr};
ghost use Rattle.m17_io.specs.Faults.{HasCause};
ghost use Rattle.m17_ports.specs.Told.{told_then};
ghost use Rattle.m17_port_memory.specs.Torn.{torn_at};

use m17_ports::Book;
use m17_values::{Failed, NoMemory};
use std::alloc::Global;
use std::marker::Model;

/// A book that keeps its bytes in memory, of a fixed room, which can be told to keep a first part of a write and fail.
#[derive(Debug, Drop)]
pub struct TornBook {
    bytes: Vec<u8>,
    room: usize,
    fails: Vec<(u64, usize)>,
    next_call: u64,
    faults: u64,
}

impl Model for TornBook {
    ghost use Rattle.std.specs.Prelude.{◌≤◌, length, vec_capacity};
    ghost use Rattle.m17_port_memory.specs.Torn.{TornKept};

    ghost Value = { TornKept };

    ghost view = { λ b. record {
      written = b.bytes.items;
      room = b.room;
      next_call = b.next_call;
      fails = b.fails.items;
      faults = b.faults;
    } };

    ghost invariant = { λ b. (length b.bytes.items ≤ b.room) × (b.room ≤ vec_capacity b.bytes) };
}

impl TornBook {
    ghost use Rattle.m17_port_memory.specs.Torn.{TornKept, new_book, faulted};

    /// A book with room for `room` bytes, with nothing written. `fails` lists calls of `write` that are to fail: their
    /// numbers, from 0, each with how many of its bytes it appends before; of two entries with one number the first
    /// holds. A write that would pass the room and is not listed fails too, and appends nothing. `NoMemory` where there
    /// is none for the room, and never for a room of 0.
    pub fn make(alloc: Global, room: usize, fails: Vec<(u64, usize)>) -> Result<TornBook, NoMemory>
        ensures made { IfOk result (λ book. book ≡ new_book room fails.items) }
        ensures no_room { room ≡ 0 → IsOk result }
    {
        let bytes = Vec::with_capacity(alloc, room)?;
        Ok(TornBook {
            bytes,
            room,
            fails,
            next_call: 0,
            faults: 0,
        })
    }

    /// The bytes written.
    pub fn bytes(&self) -> &[u8]
        ensures { result.now ≡ self.now.written }
    {
        &self.bytes
    }

    // Appends these bytes, for which there is room.
    fn append(&mut self, bytes: &[u8])
        requires { length self.old.written + length bytes.now ≤ self.old.room }
        ensures { self.new ≡ record self.old { written = self.old.written ++ bytes.now } }
    {
        match self.bytes.extend_from_slice(bytes) {
            Ok(()) => {}
            Err(_) => {}
        }
    }

    // Counts a fault.
    fn fault(&mut self) -> Failed
        ensures { self.new ≡ faulted self.old }
    {
        self.faults = self.faults.saturating_add(1);
        Failed
    }
}

impl Book for TornBook {
    ghost use Rattle.std.proofs.Math.Nat.{min-le_right};
    ghost use Rattle.m17_port_memory.specs.Torn.{TornKept, fails_to_write, tears, writes};

    type Label = ();

    ghost told = { λ b. record {
      written = Some b.written;
      faults = min b.faults (2 ^ 64 - 1);
      device = record { mark = Some 0; label = tt };
    } };

    ghost faults_fit = { λ b. min-le_right b.faults (2 ^ 64 - 1) };

    fn write(&mut self, bytes: &[u8]) -> Result<(), Failed>
        ensures cause { HasCause (min self.old.faults (2 ^ 64 - 1))
            (min self.new.faults (2 ^ 64 - 1)) result }
        ensures appended { OnOk result
            (Some self.new.written ≡ told_then (Some self.old.written) bytes.now) }
        ensures prefix { OnErr result ((n : ℕ)
            × (Some self.new.written ≡ told_then (Some self.old.written) (take n bytes.now))) }

        // A call that is listed appends the listed number of its bytes, as far as there is room, and fails.
        ensures torn { (most : ℕ) → torn_at self.old.fails self.old.next_call ≡ Some most
            → IsErr result × (self.new ≡ tears self.old most bytes.now) }

        // Another call appends all, or fails where the room does not suffice, and appends nothing.
        ensures written { torn_at self.old.fails self.old.next_call ≡ None
            → length self.old.written + length bytes.now ≤ self.old.room
            → IsOk result × (self.new ≡ writes self.old bytes.now) }
        ensures past_room { torn_at self.old.fails self.old.next_call ≡ None
            → self.old.room < length self.old.written + length bytes.now
            → IsErr result × (self.new ≡ fails_to_write self.old) }
    {
        let call = self.next_call;
        let torn = torn_at(&self.fails, call);
        self.next_call = self.next_call.saturating_add(1);
        let room = self.room - self.bytes.len();
        match torn {
            Some(most) => {
                self.append(first(bytes, most.min(room)));
                Err(self.fault())
            }
            None if bytes.len() > room => Err(self.fault()),
            None => {
                self.append(bytes);
                Ok(())
            }
        }
    }
}

// The first bytes, `most` at most.
fn first(bytes: &[u8], most: usize) -> &[u8]
    ensures { result.now ≡ take most bytes.now }
{
    if most < bytes.len() {
        &bytes[..most]
    } else {
        bytes
    }
}

// How many bytes the call with this number is to append before it fails, where it is listed.
fn torn_at(fails: &[(u64, usize)], call: u64) -> Option<usize>
    ensures { result ≡ torn_at fails.now call }
{
    for (number, most) in fails {
        if *number == call {
            return Some(*most);
        }
    }
    None
}
