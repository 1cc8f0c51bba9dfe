//! The script of a client.

ghost use Rattle.std.specs.Prelude.{◌↔◌, IsTrue};
ghost use Rattle.m17_client.specs.Talk.{IsInOrder};

use m17_stream::StreamPacket;

/// Whether no moment of the script is below the one before it, as `talk` wants it.
pub fn is_in_order(script: &[(u64, StreamPacket)]) -> bool
    ensures { IsTrue result ↔ IsInOrder script.now }
{
    for i in 1..script.len() {
        let (before, _) = &script[i - 1];
        let (moment, _) = &script[i];
        if moment < before {
            return false;
        }
    }
    true
}
