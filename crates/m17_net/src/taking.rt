ghost use Rattle.std.specs.Prelude.{◌≡◌, [], ◌∷◌, OnOk, OnErr};
ghost use Rattle.m17_ports.specs.Told.{told_then};
ghost use Rattle.m17_net.specs.Taking.{BreaksSo, TakesSo};
ghost use Rattle.m17_net.specs.Wire.{HasGivenUp, HasGoneOn};

use crate::address::peer_at;
use crate::trouble::{Trouble, trouble_of};
use crate::wire::Wire;
use m17_values::{Failed, Gram, Peer};
use std::net::SocketAddr;

/// How many bytes of a datagram are kept.
const ROOM: usize = 64;

/// How often in a row a call is made again that an error stopped which is not the socket's.
const TRIES: u32 = 16;

// What a socket had to give at one call of an ear.
#[derive(Debug, PartialEq, Eq, Drop)]
pub(crate) enum Taken {
    /// A datagram, its first 64 bytes, and who sent it.
    Datagram { from: Peer, bytes: Gram },
    /// Nothing came for as long as the socket waits.
    Nothing,
    /// One error after another that is not the socket's.
    Noise,
    /// The socket failed.
    Failed,
}

// Takes what comes next.
pub(crate) fn take_one<W: Wire>(wire: &mut W) -> Taken
    ensures taken { TakesSo result (W.taken wire.old) (W.taken wire.new) }
    ensures nothing_sent { W.sent wire.new ≡ W.sent wire.old }
    ensures broken { BreaksSo result (W.broken wire.old) (W.broken wire.new) }
    ensures same_waits { W.waits wire.new ≡ W.waits wire.old }
{
    let mut bytes = [0u8; ROOM];
    for _ in 0..TRIES {
        match wire.take(&mut bytes) {
            Ok((len, from)) => {
                return Taken::Datagram {
                    from: peer_at(from),
                    bytes: Gram::of(&bytes[..len]),
                };
            }
            Err(e) => match trouble_of(e.kind()) {
                Trouble::Waited => return Taken::Nothing,
                Trouble::Passing | Trouble::Unreachable => {}
                Trouble::Broken => return Taken::Failed,
            },
        }
    }
    Taken::Noise
}

// Sends one datagram.
pub(crate) fn send_one<W: Wire>(wire: &mut W, bytes: &[u8], to: SocketAddr) -> Result<(), Failed>
    ensures sent { OnOk result
        (W.sent wire.new ≡ told_then (W.sent wire.old) ((to, bytes.now) ∷ [])) }
    ensures nothing_sent { OnErr result (W.sent wire.new ≡ W.sent wire.old) }
    ensures nothing_taken { W.taken wire.new ≡ W.taken wire.old }
    ensures sound { W.broken wire.new ≡ W.broken wire.old }
    ensures gone_on { OnOk result (HasGoneOn (W.unsent wire.old) (W.unsent wire.new)) }
    ensures given_up { OnErr result (HasGivenUp (W.unsent wire.old) (W.unsent wire.new)) }
{
    for _ in 0..TRIES {
        match wire.send(bytes, to) {
            Ok(()) => return Ok(()),
            Err(e) => match trouble_of(e.kind()) {
                Trouble::Passing => {}
                Trouble::Waited | Trouble::Unreachable | Trouble::Broken => return Err(Failed),
            },
        }
    }
    Err(Failed)
}
