ghost use Rattle.std.specs.Prelude.{◌≡◌, ℕ, ◌-◌, ◌^◌, ◌≤◌, min, false, Some};

use crate::BytesSource;
use m17_io::Source;
use m17_values::Failed;

/// Bytes in memory as a source of which each read would wait for the outside, as at a terminal: nothing is ever at
/// hand.
#[derive(Debug, Drop)]
pub struct WaitingSource {
    /// The bytes, and when they fail.
    pub bytes: BytesSource,
}

impl WaitingSource {
    /// A source of these bytes. `fails` lists the numbers of calls, from 0, that are to fail.
    pub fn new(bytes: Vec<u8>, fails: Vec<u64>) -> WaitingSource
        ensures { result.bytes ≡ record {
          left = bytes.items;
          next_call = 0;
          fails = fails.items;
          faults = 0;
        } }
    {
        WaitingSource {
            bytes: BytesSource::new(bytes, fails),
        }
    }
}

impl Source for WaitingSource {
    ghost use Rattle.std.proofs.Math.Nat.{min-le_right};

    ghost told = { λ s. record {
      left = Some s.bytes.left;
      at_hand = false;
      faults = min s.bytes.faults (2 ^ 64 - 1);
    } };

    ghost faults_fit = { λ s. min-le_right s.bytes.faults (2 ^ 64 - 1) };

    fn read(&mut self, into: &mut [u8]) -> Result<usize, Failed> {
        self.bytes.read(into)
    }

    fn is_at_hand(&self) -> bool {
        false
    }
}
