ghost use Rattle.std.specs.Prelude.{◌≡◌};
ghost use Rattle.m17_decorators.specs.Frame as rule;

use m17_values::Peer;

/// How many bytes a stream packet has.
const FRAME_BYTES: usize = 54;

// Whether these are the bytes of a stream packet.
pub(crate) fn is_frame(bytes: &[u8]) -> bool
    ensures { result ≡ rule.is_frame bytes.now }
{
    bytes.len() == FRAME_BYTES && bytes.starts_with(b"M17 ")
}

// Whether it is the same peer.
pub(crate) fn same_peer(a: &Peer, b: &Peer) -> bool
    ensures { result ≡ rule.same_peer a.now b.now }
{
    a == b
}
