ghost use Rattle.std.specs.Prelude.{◌≡◌, ℕ, ◌+◌, ◌-◌, ◌^◌, ◌<◌, ◌≤◌, min, length, take, [], ◌++◌, Option, Some, Contains, IsErr, OnOk, IfOk, OnErr};
ghost use Rattle.m17_io.specs.Faults.{HasCause};
ghost use Rattle.m17_io.specs.Outlet.{followed_by};

use m17_io::Outlet;
use m17_values::Failed;
use std::alloc::Global;
use std::marker::Model;

/// An outlet that keeps what is sent in memory, takes a few bytes at a time, and can be told to fail.
#[derive(Debug, Drop)]
pub struct BytesOutlet {
    bytes: Vec<u8>,
    most: usize,
    fails: Vec<u64>,
    next_call: u64,
    faults: u64,
}

impl Model for BytesOutlet {
    ghost use Rattle.std.specs.Prelude.{◌<◌};
    ghost use Rattle.m17_streams.specs.Memory.{BytesSent};

    ghost Value = { BytesSent };

    ghost view = { λ s. record {
      sent = s.bytes.items;
      most = s.most;
      next_call = s.next_call;
      fails = s.fails.items;
      faults = s.faults;
    } };

    ghost invariant = { λ s. 0 < s.most };
}

impl BytesOutlet {
    ghost use Rattle.m17_streams.specs.Memory.{BytesSent};

    /// An outlet that has sent nothing, and takes at most `most` bytes at a time. `fails` lists the numbers of calls,
    /// from 0, that are to fail. A call for which there is no memory fails too.
    pub fn new(alloc: Global, most: usize, fails: Vec<u64>) -> BytesOutlet
        requires { 0 < most }
        ensures { result ≡ record {
          sent = [];
          most = most;
          next_call = 0;
          fails = fails.items;
          faults = 0;
        } }
    {
        BytesOutlet {
            bytes: Vec::new(alloc),
            most,
            fails,
            next_call: 0,
            faults: 0,
        }
    }

    /// The bytes sent.
    pub fn bytes(&self) -> &[u8]
        ensures { result.now ≡ self.now.sent }
    {
        &self.bytes
    }
}

impl Outlet for BytesOutlet {
    ghost use Rattle.std.proofs.Math.Nat.{min-le_right};

    ghost told = { λ s. record { sent = Some s.sent; faults = min s.faults (2 ^ 64 - 1) } };

    ghost faults_fit = { λ s. min-le_right s.faults (2 ^ 64 - 1) };

    fn send(&mut self, bytes: &[u8]) -> Result<usize, Failed>
        ensures cause { HasCause (min self.old.faults (2 ^ 64 - 1))
            (min self.new.faults (2 ^ 64 - 1)) result }
        ensures within { IfOk result (λ n. n ≤ length bytes.now) }
        ensures some { IfOk result (λ n. 0 < length bytes.now → 0 < n) }
        ensures ok { IfOk result (λ n. Some self.new.sent
            ≡ followed_by (Some self.old.sent) (take n bytes.now)) }
        ensures err { OnErr result (Some self.new.sent ≡ Some self.old.sent) }

        // It fails at the calls that were listed, and takes as many bytes as it may.
        ensures told_to_fail { Contains self.old.fails self.old.next_call → IsErr result }
        ensures takes { IfOk result (λ n. n ≡ min self.old.most (length bytes.now)) }

        // The call is counted, and so is its failure.
        ensures calls_counted { self.new.next_call ≡ min (self.old.next_call + 1) (2 ^ 64 - 1) }
        ensures one_fault { OnErr result (self.new.faults
            ≡ min (self.old.faults + 1) (2 ^ 64 - 1)) }
        ensures no_fault { OnOk result (self.new.faults ≡ self.old.faults) }
        ensures same { (self.new.fails ≡ self.old.fails) × (self.new.most ≡ self.old.most) }
    {
        let call = self.next_call;
        self.next_call = self.next_call.saturating_add(1);
        let n = self.most.min(bytes.len());
        if self.fails.contains(&call) || self.bytes.extend_from_slice(&bytes[..n]).is_err() {
            self.faults = self.faults.saturating_add(1);
            return Err(Failed);
        }
        Ok(n)
    }
}
