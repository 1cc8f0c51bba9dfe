ghost use Rattle.std.specs.Prelude.{◌≡◌, ℕ, [], ◌∷◌, ◌++◌, Contains, ◌↔◌, Option, None, Some, Ok, IfOk, IsNone, IsSome, IsTrue, OnOk, OnErr};
ghost use Rattle.std.specs.Option.{option_map};
ghost use Rattle.m17_io.specs.Faults.{HasCause};
ghost use Rattle.m17_ports.specs.Tallies.{IsTallied, counted, no_tally, tally_then};
ghost use Rattle.m17_ports.specs.Told.{told_then};
ghost use Rattle.m17_ports.specs.Mouth.{Datagram};
ghost use Rattle.m17_port_memory.specs.Peers.{named_in, tally_at};
ghost use Rattle.m17_values.specs.declared.peer.Peer.{Peer};
ghost use Rattle.m17_ports.specs.declared.tally.Tally.{Tally};

use m17_ports::{Mouth, Tally};
use m17_values::{Failed, NoMemory, Peer};
use std::alloc::Global;
use std::collections::BTreeMap;
use std::marker::Model;

/// What a peer's tally begins with.
const NO_TALLY: Tally = Tally {
    ackn: 0,
    nack: 0,
    ping: 0,
    pong: 0,
    disc: 0,
    frame: 0,
};

/// A mouth that keeps for each of some peers how many datagrams of each kind were said to it, and nothing else. It
/// never fails. A datagram to another peer, or of another kind, is not kept.
#[derive(Drop)]
pub struct TallyMouth {
    tallies: BTreeMap<Peer, Tally>,
    number: u64,
}

impl Model for TallyMouth {
    ghost use Rattle.m17_port_memory.specs.Kept.{TalliesKept};

    ghost Value = { TalliesKept };

    ghost view = { λ m. record { entries = m.tallies.entries; number = m.number } };
}

impl TallyMouth {
    /// A mouth with an empty tally for each of the peers, which may come in any order and more than once. `NoMemory`
    /// where there is none for them.
    pub fn make(alloc: Global, peers: &[Peer]) -> Result<TallyMouth, NoMemory>
        ensures named { IfOk result (λ mouth. (peer : Peer)
            → IsSome (tally_at mouth.entries peer) ↔ Contains peers.now peer) }
        ensures empty { IfOk result (λ mouth. (peer : Peer) (tally : Tally)
            → tally_at mouth.entries peer ≡ Some tally → tally ≡ no_tally) }
        ensures number { IfOk result (λ mouth. mouth.number ≡ 0) }
    {
        let mut tallies = BTreeMap::new(alloc);
        for peer in peers {
            tallies.insert(*peer, NO_TALLY)?;
        }
        Ok(TallyMouth { tallies, number: 0 })
    }

    /// The tally of a peer; none exactly where the peer is not named.
    pub fn tally(&self, peer: &Peer) -> Option<Tally>
        ensures value { result ≡ tally_at self.now.entries peer.now }
        ensures named { IsSome result ↔ Contains (named_in self.now.entries) peer.now }
    {
        self.tallies.get(peer).copied()
    }

    /// Whether it has a tally of nobody: then nothing that is said to it is kept.
    pub fn names_nobody(&self) -> bool
        ensures { IsTrue result ↔ (self.now.entries ≡ []) }
    {
        self.tallies.is_empty()
    }
}

impl Mouth for TallyMouth {
    ghost use Rattle.std.proofs.Common.{lit≤};
    ghost use Rattle.m17_port_memory.specs.PeerOrder.{tells-named};
    ghost use Rattle.m17_port_memory.specs.Tells.{tally_mouth_told};

    type Label = ();

    ghost told = { tally_mouth_told };

    ghost faults_fit = { λ _. lit≤ tt };

    ghost tells_named = { λ m. tells-named m.entries };

    fn say(&mut self, to: &Peer, bytes: &[u8]) -> Result<(), Failed>
        ensures cause { HasCause 0 0 result }
        ensures appended { OnOk result (None ≡ told_then {A = Datagram} None ((to.now, bytes.now) ∷ [])) }
        ensures tallied { OnOk result
            (IsTallied (tally_at self.old.entries) to.now bytes.now (tally_at self.new.entries)) }

        // It never fails, and a peer without a tally gets none.
        ensures never_fails { result ≡ Ok tt }
        ensures same_device { (self.new.number ≡ self.old.number)
            × (named_in self.new.entries ≡ named_in self.old.entries) }
    {
        if let Some(tally) = self.tallies.get_mut(to) {
            count(tally, bytes);
        }
        Ok(())
    }
}

// One more datagram of these bytes to a peer with this tally.
fn count(tally: &mut Tally, bytes: &[u8])
    ensures { tally.new ≡ tally_then tally.old bytes.now }
{
    *tally = Tally {
        ackn: counted(tally.ackn, b"ACKN", bytes),
        nack: counted(tally.nack, b"NACK", bytes),
        ping: counted(tally.ping, b"PING", bytes),
        pong: counted(tally.pong, b"PONG", bytes),
        disc: counted(tally.disc, b"DISC", bytes),
        frame: counted(tally.frame, b"M17 ", bytes),
    };
}

// The number of a kind after one more datagram.
fn counted(number: u64, magic: &[u8], bytes: &[u8]) -> u64
    ensures { result ≡ counted number magic.now bytes.now }
{
    if bytes.starts_with(magic) {
        number.saturating_add(1)
    } else {
        number
    }
}
