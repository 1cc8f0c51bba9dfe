ghost use Rattle.std.specs.Prelude.{◌≡◌, ◌-◌, ◌^◌, ◌≤◌, None};

use m17_io::Sink;
use m17_values::Failed;

// A sink for whoever prints nothing: it takes all bytes, keeps none and holds none back.
pub(crate) struct Silent;

impl Sink for Silent {
    ghost use Rattle.std.proofs.Common.{lit≤};

    ghost told = { λ _. record {
      written = None;
      held_back = 0;
      faults = 0;
    } };

    fn write(&mut self, _bytes: &[u8]) -> Result<(), Failed> {
        Ok(())
    }

    fn flush(&mut self) -> Result<(), Failed> {
        Ok(())
    }

    ghost faults_fit = { λ _. lit≤ tt };
}
