ghost use Rattle.std.specs.Prelude.{◌≡◌, ◌≢◌, true, false};
ghost use Rattle.std.specs.declared.io.ErrorKind.{ErrorKind};

use std::io::ErrorKind;

/// Whether an error of the system is a fault of the device: each is, but that a signal interrupted the call, which is
/// then made again.
pub fn is_fault(kind: ErrorKind) -> bool
    ensures interrupted { kind ≡ ErrorKind.Interrupted → result ≡ false }
    ensures other { kind ≢ ErrorKind.Interrupted → result ≡ true }
{
    kind != ErrorKind::Interrupted
}
