//! What is said on a mouth, in the name of the reflector.

ghost use Rattle.std.specs.Prelude.{◌≡◌, [], Some, map};
ghost use Rattle.std.specs.List.{filter_map};
ghost use Rattle.std.specs.Option.{option_to_list};
ghost use Rattle.m17_control.specs.Spelled.{packet_said};
ghost use Rattle.m17_control.specs.declared.packet.Packet.TheVariants as packets;
ghost use Rattle.m17_directory.specs.Routed.{reply_for};
ghost use Rattle.m17_directory.specs.declared.dispatch.Dispatch.TheVariants.{ToDoor};
ghost use Rattle.m17_house.specs.Replay.{packet_to};
ghost use Rattle.m17_house.specs.Tallied.{HasSaidMore};

use m17_callsign::CallAddress;
use m17_control::{Direct, Item, Said, spell, write};
use m17_module::Basket;
use m17_port_memory::TallyMouth;
use m17_ports::Mouth;
use m17_stream::StreamPacket;

/// What a voice frame begins with, which is all that a tally looks at.
const FRAME_MAGIC: &[u8] = b"M17 ";

// Says an item, unless it spells nothing. A voice frame isn't spelled: its tally would be the same.
fn say_item(item: &Item, name: CallAddress, mouth: &mut TallyMouth)
    ensures { HasSaidMore (λ x. option_to_list (packet_to x name item.now)) mouth.old mouth.new }
{
    match &item.body {
        Said::Frame { packet, .. } => say_frame(item, packet, name, mouth),
        Said::Echo { packet, .. } => say_frame(item, packet, name, mouth),
        _ => say_spelled(item, name, mouth),
    }
}

// Says what stands for the voice frame that an item is.
fn say_frame(item: &Item, _packet: &StreamPacket, name: CallAddress, mouth: &mut TallyMouth)
    requires { packet_said item.now.body name ≡ Some (packets.Stream _packet.now) }
    ensures { HasSaidMore (λ x. option_to_list (packet_to x name item.now)) mouth.old mouth.new }
{
    let _ = mouth.say(&item.peer, FRAME_MAGIC);
}

// Says what an item spells, if that is something. Where the mouth has no tally for its peer, nothing would be kept of it,
// and it isn't spelled.
fn say_spelled(item: &Item, name: CallAddress, mouth: &mut TallyMouth)
    ensures { HasSaidMore (λ x. option_to_list (packet_to x name item.now)) mouth.old mouth.new }
{
    if mouth.tally(&item.peer).is_none() {
        return;
    }
    if let Some(datagram) = spell(item, name) {
        let _ = mouth.say(&item.peer, datagram.as_slice());
    }
}

/// Says all that a module gave, in order, and leaves the basket empty. Where the mouth has a tally of nobody, as in a
/// replay without a summary, nothing would be kept of it, and no item is looked at.
pub(crate) fn say_all(out: &mut Basket, name: CallAddress, mouth: &mut TallyMouth)
    ensures taken { out.new ≡ [] }
    ensures said { HasSaidMore (λ x. filter_map (packet_to x name) out.old) mouth.old mouth.new }
{
    if mouth.names_nobody() {
        drop_all(out);
        return;
    }
    say_each(out, name, mouth);
}

// Says none of them.
fn drop_all(out: &mut Basket)
    ensures { out.new ≡ [] }
{
    while let Some(_item) = out.take() {}
}

// The same, item by item.
fn say_each(out: &mut Basket, name: CallAddress, mouth: &mut TallyMouth)
    ensures taken { out.new ≡ [] }
    ensures said { HasSaidMore (λ x. filter_map (packet_to x name) out.old) mouth.old mouth.new }
{
    while let Some(item) = out.take() {
        say_item(&item, name, mouth);
    }
}

/// Says a reply that goes past all modules.
pub(crate) fn answer(direct: &Direct, mouth: &mut TallyMouth)
    ensures { HasSaidMore
        (λ x. map packets.Control (option_to_list (reply_for x (ToDoor direct.now))))
        mouth.old mouth.new }
{
    let _ = mouth.say(&direct.peer, write(&direct.control).as_slice());
}
