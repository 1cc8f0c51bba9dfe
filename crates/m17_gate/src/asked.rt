ghost use Rattle.std.specs.Prelude.{◌≡◌};
ghost use Rattle.m17_gate.specs.Asking.{asked_by};

use m17_control::{Control, Packet};
use m17_values::Address;

/// What a packet asks of a gate.
#[derive(Clone, Copy, Debug, PartialEq, Eq)]
pub enum Asked {
    /// To connect to a module: a CONN.
    Connects { from: Address, module: u8 },
    /// To listen to a module: a LSTN.
    Listens { from: Address, module: u8 },
    /// To speak: a stream packet, whose sender its link setup data name.
    Talks { src: Address },
}

/// What the packet asks; none of a packet of another kind.
pub(crate) fn asked_by(packet: &Packet) -> Option<Asked>
    ensures { result ≡ asked_by packet.now }
{
    match packet {
        Packet::Stream(frame) => Some(Asked::Talks { src: frame.lsd.src }),
        Packet::Control(Control::Conn { from, module }) => Some(Asked::Connects {
            from: from.address(),
            module: module.byte(),
        }),
        Packet::Control(Control::Lstn { from, module }) => Some(Asked::Listens {
            from: from.address(),
            module: module.byte(),
        }),
        Packet::Control(_) => None,
    }
}
