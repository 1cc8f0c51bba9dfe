ghost use Rattle.std.specs.Prelude.{◌≡◌};
ghost use Rattle.m17_directory.specs.Steps.{is_among};
ghost use Rattle.m17_directory.specs.Entries.{is_peer};

use crate::Known;
use m17_values::Peer;

/// How long a peer may be silent, in milliseconds, before it leaves.
pub(crate) const SILENCE_MS: u64 = 30_000;

// Which of those that are known leave.
#[derive(Clone, Copy, Debug)]
pub(crate) enum Whom {
    // Who was not heard for 30,000 ms at this moment.
    Silent(u64),
    // This peer.
    Peer(Peer),
    // Who has this place.
    Place(u32),
    // All.
    Everyone,
}

impl Whom {
    // Whether one that is known is among them.
    pub(crate) fn has(&self, k: &Known) -> bool
        ensures { result ≡ is_among self.now k.now }
    {
        match self {
            Whom::Silent(moment) => moment.saturating_sub(k.heard_at) >= SILENCE_MS,
            Whom::Peer(peer) => is_same(peer, &k.peer),
            Whom::Place(place) => k.member.place == *place,
            Whom::Everyone => true,
        }
    }
}

// Whether they are one peer, in the order of peers.
pub(crate) fn is_same(a: &Peer, b: &Peer) -> bool
    ensures { result ≡ is_peer a.now b.now }
{
    a.cmp(b).is_eq()
}
