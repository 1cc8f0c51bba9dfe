ghost use Rattle.std.specs.Prelude.{◌≡◌, ℕ, ◌-◌, ◌^◌, ◌≤◌, min, false, length, None, Some, List, IfOk};
ghost use Rattle.std.specs.Io.KnownBytes.{ReadConsumes};

use crate::interruption::is_fault;
use m17_io::Source;
use m17_values::Failed;
use std::io::Read;

/// A reader, as standard input, as a source: each read of it is one of the reader's. The trusted edge: what the reader
/// gives is not told, nor whether it waits.
#[derive(Drop)]
pub struct StdIn<R: Read + Drop> {
    reader: R,
    faults: u64,
}

impl<R: Read + Drop> StdIn<R> {
    /// A source over a reader.
    pub fn new(reader: R) -> StdIn<R>
        ensures { result ≡ record { reader = reader; faults = 0 } }
    {
        StdIn { reader, faults: 0 }
    }
}

// Reads by one call of the reader, which is made again where a signal interrupted it, however often.
fn read_once<R: Read>(reader: &mut R, into: &mut [u8]) -> Result<usize, Failed>
    ensures within { IfOk result (λ n. n ≤ length into.old) }
    ensures bytes { ReadConsumes (R.remaining reader.old) (R.remaining reader.new) result into.new }
{
    for _ in 0..u64::MAX {
        match reader.read(into) {
            Ok(n) => return Ok(n),
            Err(e) => {
                if is_fault(e.kind()) {
                    return Err(Failed);
                }
            }
        }
    }
    Err(Failed)
}

impl<R: Read + Drop> Source for StdIn<R> {
    ghost use Rattle.std.proofs.Math.Nat.{min-le_right};

    ghost told = { λ s. record {
      left = None;
      at_hand = false;
      faults = min s.faults (2 ^ 64 - 1);
    } };

    ghost faults_fit = { λ s. min-le_right s.faults (2 ^ 64 - 1) };

    fn read(&mut self, into: &mut [u8]) -> Result<usize, Failed> {
        match read_once(&mut self.reader, into) {
            Ok(n) => Ok(n),
            Err(failed) => {
                self.faults = self.faults.saturating_add(1);
                Err(failed)
            }
        }
    }

    fn is_at_hand(&self) -> bool {
        false
    }
}
