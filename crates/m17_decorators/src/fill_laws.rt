//! What filling in CRCs does to packets, for callers to cite by name. Each is a function without
//! arguments, which does nothing and ensures the law.
ghost use Rattle.std.specs.Prelude.{false};
ghost use Rattle.m17_decorators.specs.Filling.{fill_told};
ghost use Rattle.m17_decorators.specs.Laws.{FilledArePackets, IsHeardAs, NothingIsFilled, PacketsStay};

use m17_ports::Ear;

/// What a filled datagram spells is a stream packet, with the bytes before the CRC as they came.
pub fn filled_are_packets()
    ensures { FilledArePackets }
{
    m17_stream::laws::reading_is_exact();
    m17_crc::laws::crc_has_16_bits();
    m17_fields::laws::fields_of_16_bits_are_exact();
}

/// A datagram that spells a stream packet already is heard as it is.
pub fn packets_stay()
    ensures { PacketsStay }
{}

/// An ear that fills in nothing hears what the ear behind it hears, and fails where that does.
pub fn nothing_is_filled<E: Ear>()
    ensures entries { NothingIsFilled }
    ensures ears { (ear : E)
        → IsHeardAs (fill_told E.told (record { inner = ear; fills = false })) (E.told ear) }
{}
