ghost use Rattle.std.specs.Prelude.{None};

use m17_io::Sink;
use m17_values::Failed;

/// A sink that keeps nothing and never fails, for who reads and prints nothing.
#[derive(Drop)]
pub(crate) struct Nowhere;

impl Sink for Nowhere {
    ghost use Rattle.std.proofs.Common.{arith};

    ghost told = { λ _. record {
      written = None;
      held_back = 0;
      faults = 0;
    } };

    ghost faults_fit = { λ _. Prim.omega arith };

    fn write(&mut self, _bytes: &[u8]) -> Result<(), Failed> {
        Ok(())
    }

    fn flush(&mut self) -> Result<(), Failed> {
        Ok(())
    }
}
