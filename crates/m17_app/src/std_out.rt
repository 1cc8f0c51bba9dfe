ghost use Rattle.std.specs.Prelude.{◌≡◌, ℕ, ◌-◌, ◌^◌, ◌<◌, ◌≤◌, min, length, None, IfOk};

use crate::interruption::is_fault;
use m17_io::Outlet;
use m17_values::Failed;

/// What prints, as standard output, as an outlet: each send is one write. The trusted edge: what has left is not told.
#[derive(Drop)]
pub struct StdOut<'a, P: Print> {
    to: &'a P,
    faults: u64,
}

impl<'a, P: Print> StdOut<'a, P> {
    /// An outlet over what prints.
    pub fn new(to: &'a P) -> StdOut<'a, P>
        ensures { result.faults ≡ 0 }
    {
        StdOut { to, faults: 0 }
    }
}

// Writes some of the bytes by one call, which is made again where a signal interrupted it, however often. A call that
// writes none of them, where there are some, is a fault.
fn write_once<P: Print>(to: &P, bytes: &[u8]) -> Result<usize, Failed>
    ensures within { IfOk result (λ n. n ≤ length bytes.now) }
    ensures some { IfOk result (λ n. 0 < length bytes.now → 0 < n) }
{
    if bytes.is_empty() {
        return Ok(0);
    }
    for _ in 0..u64::MAX {
        match to.write_some(bytes) {
            Ok(0) => return Err(Failed),
            Ok(n) => return Ok(n),
            Err(e) => {
                if is_fault(e.kind()) {
                    return Err(Failed);
                }
            }
        }
    }
    Err(Failed)
}

impl<P: Print> Outlet for StdOut<'_, P> {
    ghost use Rattle.std.proofs.Math.Nat.{min-le_right};

    ghost told = { λ s. record {
      sent = None;
      faults = min s.faults (2 ^ 64 - 1);
    } };

    ghost faults_fit = { λ s. min-le_right s.faults (2 ^ 64 - 1) };

    fn send(&mut self, bytes: &[u8]) -> Result<usize, Failed> {
        match write_once(self.to, bytes) {
            Ok(n) => Ok(n),
            Err(failed) => {
                self.faults = self.faults.saturating_add(1);
                Err(failed)
            }
        }
    }
}
