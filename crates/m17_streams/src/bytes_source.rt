ghost use Rattle.std.specs.Prelude.{◌≡◌, ℕ, true, ◌+◌, ◌-◌, ◌^◌, ◌≤◌, ◌↔◌, min, length, take, drop, ◌++◌, List, Option, Some, Contains, IsErr, IfOk, OnOk, OnErr};
ghost use Rattle.m17_io.specs.Faults.{HasCause};
ghost use Rattle.m17_io.specs.Source.{Takes};

use m17_io::Source;
use m17_values::Failed;
use std::marker::Model;

/// Bytes in memory as a source, which can be told to fail.
#[derive(Debug, Drop)]
pub struct BytesSource {
    bytes: Vec<u8>,
    place: usize,
    fails: Vec<u64>,
    next_call: u64,
    faults: u64,
}

impl Model for BytesSource {
    ghost use Rattle.std.specs.Prelude.{◌≤◌, length, drop};
    ghost use Rattle.m17_streams.specs.Memory.{BytesLeft};

    ghost Value = { BytesLeft };

    ghost view = { λ s. record {
      left = drop s.place s.bytes.items;
      next_call = s.next_call;
      fails = s.fails.items;
      faults = s.faults;
    } };

    ghost invariant = { λ s. s.place ≤ length s.bytes.items };
}

impl BytesSource {
    ghost use Rattle.m17_streams.specs.Memory.{BytesLeft};

    /// A source of these bytes. `fails` lists the numbers of calls, from 0, that are to fail.
    pub fn new(bytes: Vec<u8>, fails: Vec<u64>) -> BytesSource
        ensures { result ≡ record {
          left = bytes.items;
          next_call = 0;
          fails = fails.items;
          faults = 0;
        } }
    {
        BytesSource {
            bytes,
            place: 0,
            fails,
            next_call: 0,
            faults: 0,
        }
    }
}

impl Source for BytesSource {
    ghost use Rattle.std.proofs.Math.Nat.{min-le_right};

    ghost told = { λ s. record {
      left = Some s.left;
      at_hand = true;
      faults = min s.faults (2 ^ 64 - 1);
    } };

    ghost faults_fit = { λ s. min-le_right s.faults (2 ^ 64 - 1) };

    fn read(&mut self, into: &mut [u8]) -> Result<usize, Failed>
        ensures cause { HasCause (min self.old.faults (2 ^ 64 - 1))
            (min self.new.faults (2 ^ 64 - 1)) result }
        ensures within { IfOk result (λ n. n ≤ length into.old) }
        ensures taken { IfOk result (λ n. (bytes : List ℕ) → Some self.old.left ≡ Some bytes
            → Takes bytes n into.old into.new (Some self.new.left)) }
        ensures nothing_taken { OnErr result (Some self.new.left ≡ Some self.old.left) }

        // It fails exactly at the calls that were listed, and then leaves the buffer as it was. Else it fills the
        // buffer as far as it can.
        ensures told_to_fail { IsErr result ↔ Contains self.old.fails self.old.next_call }
        ensures buffer_kept { OnErr result (into.new ≡ into.old) }
        ensures fills { IfOk result (λ n. n ≡ min (length into.old) (length self.old.left)) }

        // The call is counted, and so is its failure.
        ensures calls_counted { self.new.next_call ≡ min (self.old.next_call + 1) (2 ^ 64 - 1) }
        ensures one_fault { OnErr result (self.new.faults
            ≡ min (self.old.faults + 1) (2 ^ 64 - 1)) }
        ensures no_fault { OnOk result (self.new.faults ≡ self.old.faults) }
        ensures same_list { self.new.fails ≡ self.old.fails }
    {
        let call = self.next_call;
        self.next_call = self.next_call.saturating_add(1);
        if self.fails.contains(&call) {
            self.faults = self.faults.saturating_add(1);
            return Err(Failed);
        }
        let rest = &self.bytes[self.place..];
        let n = rest.len().min(into.len());
        into[..n].copy_from_slice(&rest[..n]);
        self.place += n;
        Ok(n)
    }

    fn is_at_hand(&self) -> bool {
        true
    }
}
