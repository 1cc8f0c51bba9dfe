//! What is said on a mouth, in the name of the reflector.
ghost use Rattle.std.specs.Prelude.{◌≡◌, ◌<◌, ◌∷◌, [], map, slice_get, slice_set, Some, vec_len};
ghost use Rattle.m17_control.specs.declared.packet.Packet.TheVariants as packets;
ghost use Rattle.m17_control.specs.Spelled.{packet_said};
ghost use Rattle.m17_ports.specs.Mouth.{SaidOf};
ghost use Rattle.m17_sender.specs.Acts.{AreSpelled, to_peer};
ghost use Rattle.m17_sender.specs.Saying.{SaysOn};

use crate::kept::SpelledFrame;
use m17_callsign::CallAddress;
use m17_control::{Direct, Item, Said, spell, write};
use m17_ports::Mouth;
use m17_stream::StreamPacket;
use m17_values::Peer;

/// Says an item on the mouth of its link, in the name of the reflector, unless it spells nothing. There has to be such
/// a link. Where the mouth fails it is lost, and nothing else.
pub fn say_item<M: Mouth>(mouths: &mut Vec<M>, name: CallAddress, item: &Item)
    requires { item.now.link < vec_len mouths.old }
    ensures { SaysOn M.told item.now.link
        (to_peer item.now.peer (packet_said item.now.body name))
        mouths.old.items mouths.new.items }
{
    m17_ports::laws::mouths_say_in_turn::<M::Label>();
    if let Some(datagram) = spell(item, name) {
        say(
            &mut mouths[item.link as usize],
            &item.peer,
            datagram.as_slice(),
        );
    }
}

/// `say_item` for who keeps the frame that was spelled last: a frame that is said again isn't spelled again.
pub(crate) fn say_kept<M: Mouth>(
    mouths: &mut Vec<M>,
    name: CallAddress,
    item: &Item,
    last: &mut Option<SpelledFrame>,
)
    requires { item.now.link < vec_len mouths.old }
    ensures { SaysOn M.told item.now.link
        (to_peer item.now.peer (packet_said item.now.body name))
        mouths.old.items mouths.new.items }
{
    match &item.body {
        Said::Frame { packet, .. } | Said::Echo { packet, .. } => {
            say_frame(mouths, item, packet, last);
        }
        _ => say_item(mouths, name, item),
    }
}

// Says a frame to an item's peer on the mouth of its link; it is spelled unless it is the one that was spelled last.
fn say_frame<M: Mouth>(
    mouths: &mut Vec<M>,
    item: &Item,
    packet: &StreamPacket,
    last: &mut Option<SpelledFrame>,
)
    requires { item.now.link < vec_len mouths.old }
    ensures { SaysOn M.told item.now.link
        ((item.now.peer, packets.Stream packet.now) ∷ [])
        mouths.old.items mouths.new.items }
{
    match last {
        Some(frame) if frame.is_of(packet) => say(
            &mut mouths[item.link as usize],
            &item.peer,
            &frame.bytes,
        ),
        _ => say_anew(mouths, item, packet, last),
    }
}

// Spells a frame and says it so.
fn say_anew<M: Mouth>(
    mouths: &mut Vec<M>,
    item: &Item,
    packet: &StreamPacket,
    last: &mut Option<SpelledFrame>,
)
    requires { item.now.link < vec_len mouths.old }
    ensures { SaysOn M.told item.now.link
        ((item.now.peer, packets.Stream packet.now) ∷ [])
        mouths.old.items mouths.new.items }
{
    let frame = SpelledFrame::spell(packet);
    say(&mut mouths[item.link as usize], &item.peer, &frame.bytes);
    *last = Some(frame);
}

/// Says a reply on the mouth of its link. There has to be such a link. Where the mouth fails it is lost, and nothing
/// else.
pub fn say_reply<M: Mouth>(mouths: &mut Vec<M>, reply: &Direct)
    requires { reply.now.link < vec_len mouths.old }
    ensures { SaysOn M.told reply.now.link
        ((reply.now.peer, packets.Control reply.now.control) ∷ [])
        mouths.old.items mouths.new.items }
{
    let datagram = write(&reply.control);
    say(
        &mut mouths[reply.link as usize],
        &reply.peer,
        datagram.as_slice(),
    );
}

// Says one datagram; where the mouth fails it is lost.
fn say<M: Mouth>(mouth: &mut M, to: &Peer, bytes: &[u8])
    ensures { SaidOf (M.told mouth.old)
        ((to.now, bytes.now) ∷ [])
        (M.told mouth.new) }
{
    m17_ports::laws::mouths_say_in_turn::<M::Label>();
    let _ = mouth.say(to, bytes);
}
