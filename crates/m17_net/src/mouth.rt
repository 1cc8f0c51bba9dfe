ghost use Rattle.std.specs.Prelude.{◌≡◌, ℕ, ◌-◌, ◌^◌, ◌≤◌, min, [], ◌∷◌, None, Some, OnOk, OnErr};
ghost use Rattle.m17_io.specs.Faults.{HasCause};
ghost use Rattle.m17_ports.specs.Told.{told_then};
ghost use Rattle.m17_ports.specs.Mouth.{Datagram};
ghost use Rattle.m17_ports.specs.Ports.{next_number};
ghost use Rattle.m17_ports.specs.Tallies.{IsTallied};
ghost use Rattle.m17_net.specs.Devices.{SendsTo};
ghost use Rattle.m17_net.specs.Wire.{HasGivenUp, HasGoneOn};

use crate::address::address_of;
use crate::taking::send_one;
use crate::wire::Wire;
use m17_ports::Mouth;
use m17_values::{Failed, Peer};
use std::marker::Model;
use std::net::UdpSocket;

/// The sending half of a UDP socket.
#[derive(Drop)]
pub struct UdpMouth<W: Wire + Drop = UdpSocket> {
    wire: W,
    six: bool,
    faults: u64,
    number: u64,
}

impl<W: Wire + Drop> Model for UdpMouth<W> {
    ghost use Rattle.m17_net.specs.Devices.{MouthKept};

    ghost Value = { MouthKept W };

    ghost view = { λ m. record {
      wire = m.wire;
      six = m.six;
      faults = m.faults;
      number = m.number;
    } };
}

impl<W: Wire + Drop> UdpMouth<W> {
    ghost use Rattle.m17_net.specs.Devices.{MouthKept, new_mouth};

    /// A mouth on this socket (`sockets`); `six` says whether it is one of IPv6. It is the mouth of this number.
    pub fn new(wire: W, six: bool, number: u64) -> UdpMouth<W>
        ensures { result ≡ new_mouth wire six number }
    {
        UdpMouth {
            wire,
            six,
            faults: 0,
            number,
        }
    }
}

impl<W: Wire + Drop> Mouth for UdpMouth<W> {
    ghost use Rattle.std.proofs.Math.Nat.{min-le_right};
    ghost use Rattle.m17_net.specs.Devices.{MouthKept, udp_mouth_told};
    ghost use Rattle.m17_ports.specs.Untold.{names_nobody};

    type Label = ();

    ghost told = { udp_mouth_told };

    ghost faults_fit = { λ m. min-le_right m.faults (2 ^ 64 - 1) };

    ghost tells_named = { λ _ peers peer marked. names_nobody peers peer marked };

    fn say(&mut self, to: &Peer, bytes: &[u8]) -> Result<(), Failed>
        ensures cause { HasCause (min self.old.faults (2 ^ 64 - 1))
            (min self.new.faults (2 ^ 64 - 1)) result }
        ensures appended { OnOk result
            (None ≡ told_then {A = Datagram} None ((to.now, bytes.now) ∷ [])) }
        ensures tallied { OnOk result (IsTallied (λ _. None) to.now bytes.now (λ _. None)) }
        ensures same_device { self.new.number ≡ self.old.number }

        // Its socket sent the datagram, once, to the address of the peer; or nothing.
        ensures sent { OnOk result (SendsTo self.old.six (to.now, bytes.now)
            (W.sent self.old.wire) (W.sent self.new.wire)) }
        ensures nothing_sent { OnErr result (W.sent self.new.wire ≡ W.sent self.old.wire) }
        ensures nothing_taken { W.taken self.new.wire ≡ W.taken self.old.wire }

        // It makes a call again only after an error that is worth that, and fails only where its calls gave errors: one
        // that is not worth that, or 16.
        ensures gone_on { OnOk result
            (HasGoneOn (W.unsent self.old.wire) (W.unsent self.new.wire)) }
        ensures given_up { OnErr result
            (HasGivenUp (W.unsent self.old.wire) (W.unsent self.new.wire)) }

        // A failure is counted; the rest stays.
        ensures said { OnOk result (self.new ≡ record self.old { wire = self.new.wire }) }
        ensures failed { OnErr result (self.new ≡ record self.old {
          wire = self.new.wire;
          faults = next_number self.old.faults;
        }) }
    {
        let address = address_of(to, self.six);
        match send_one(&mut self.wire, bytes, address) {
            Ok(()) => Ok(()),
            Err(failed) => {
                self.faults = self.faults.saturating_add(1);
                Err(failed)
            }
        }
    }
}
