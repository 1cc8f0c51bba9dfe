ghost use Rattle.std.specs.Prelude.{◌≡◌, IfSome, is_some};
ghost use Rattle.m17_control.specs.Forms.{Spells, SpellsControl};
ghost use Rattle.m17_control.specs.Spelled.{packet_said};
ghost use Rattle.m17_stream.specs.Stream.{SpellsStream};

use crate::{Control, Item, Said, Why, write};
use arrayvec::ArrayVec;
use m17_callsign::CallAddress;
use m17_stream::StreamPacket;

/// How many bytes the longest datagram has: a voice frame.
const DATAGRAM_BYTES: usize = 54;

/// The datagram that says the item, where `name` is the reflector's address: 4, 10 or 54 bytes. A member that joined
/// hears ACKN, a frame or an echo is its packet, and an answer its control packet; the question is PING with the
/// reflector's name; who asked to leave hears the DISC of 4 bytes, and who was silent or outlived the link that of 10.
/// None exactly for a member that moved or was replaced, to whom nothing is said.
pub fn spell(item: &Item, name: CallAddress) -> Option<ArrayVec<u8, 54>>
    ensures said { is_some result ≡ is_some (packet_said item.now.body name) }
    ensures bytes { IfSome result (λ datagram. IfSome (packet_said item.now.body name)
        (λ packet. Spells packet datagram.items)) }
{
    match item.body {
        Said::Hello { .. } => Some(of_control(&Control::Ackn)),
        Said::Frame { packet, .. } => Some(of_stream(&packet)),
        Said::Echo { packet, .. } => Some(of_stream(&packet)),
        Said::Reply { control } => Some(of_control(&control)),
        Said::Ping => Some(of_control(&Control::Ping { from: name })),
        Said::Bye { why: Why::Asked } => Some(of_control(&Control::Disc { from: None })),
        Said::Bye { why: Why::Silent } => Some(of_control(&Control::Disc { from: Some(name) })),
        Said::Bye { why: Why::Stopped } => Some(of_control(&Control::Disc { from: Some(name) })),
        Said::Bye { why: Why::Moved } => None,
        Said::Bye { why: Why::Replaced } => None,
    }
}

// The bytes of a control packet.
fn of_control(control: &Control) -> ArrayVec<u8, DATAGRAM_BYTES>
    ensures { SpellsControl control.now result.items }
{
    let mut datagram = ArrayVec::new();
    datagram
        .try_extend_from_slice(write(control).as_slice())
        .unwrap();
    datagram
}

// The bytes of a stream packet.
fn of_stream(packet: &StreamPacket) -> ArrayVec<u8, DATAGRAM_BYTES>
    ensures { SpellsStream packet.now result.items }
{
    let mut datagram = ArrayVec::new();
    datagram
        .try_extend_from_slice(&m17_stream::write(packet))
        .unwrap();
    datagram
}
