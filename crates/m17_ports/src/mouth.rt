ghost use Rattle.std.specs.Prelude.{◌≡◌, ◌-◌, ◌^◌, ◌≤◌, ◌↔◌, List, [], ◌∷◌, Contains, Some, IsSome, OnOk, OnErr};
ghost use Rattle.m17_io.specs.Faults.{HasCause};
ghost use Rattle.m17_values.specs.declared.peer.Peer.{Peer};
ghost use Rattle.m17_ports.specs.Told.{told_then};
ghost use Rattle.m17_ports.specs.Marks.{peers_of};
ghost use Rattle.m17_ports.specs.Mouth.{MouthTold};
ghost use Rattle.m17_ports.specs.Tallies.{IsTallied};

use m17_values::{Failed, Peer};

/// The sending half of a socket.
pub trait Mouth {
    /// What is said at this form of a mouth, with the label of the device below it where there is one.
    type Label;

    /// What it tells: the datagrams said so far and the tallies of peers, how often it has failed, and which mouth it is.
    ghost told: { Self → MouthTold Self.Label };

    /// Sends the datagram of these bytes to the peer. `Failed` where the device failed, and then nothing was said.
    fn say(&mut self, to: &Peer, bytes: &[u8]) -> Result<(), Failed>
        ensures cause { HasCause (told self.old).faults (told self.new).faults result }
        ensures appended { OnOk result ((told self.new).said
            ≡ told_then (told self.old).said ((to.now, bytes.now) ∷ [])) }
        ensures tallied { OnOk result
            (IsTallied (told self.old).tallies to.now bytes.now (told self.new).tallies) }
        ensures nothing_appended { OnErr result ((told self.new).said ≡ (told self.old).said) }
        ensures nothing_tallied { OnErr result
            ((told self.new).tallies ≡ (told self.old).tallies) }
        ensures same_device { (told self.new).device ≡ (told self.old).device };

    /// A count of faults is a number of 64 bits: one that stands at the greatest stays there.
    ghost faults_fit: { (mouth : Self) → (told mouth).faults ≤ 2 ^ 64 - 1 };

    /// A mouth that names peers tells a tally for these, and for no other.
    ghost tells_named: { (mouth : Self) (peers : List Peer) (peer : Peer)
        → peers_of (told mouth).device.mark ≡ Some peers
        → IsSome ((told mouth).tallies peer) ↔ Contains peers peer };
}
