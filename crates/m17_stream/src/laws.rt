ghost use Rattle.m17_stream.specs.Laws.{OneSpelling, OnePacket, ReadingIsExact};

/// Two packets that the same bytes spell are one. M17 Protocol Specification, IP networking.
#[inline]
pub fn one_spelling()
    ensures { OneSpelling }
{
    m17_lsd::laws::fields_are_exact();
    m17_fields::laws::fields_of_16_bits_are_exact();
}

/// A packet has one spelling. M17 Protocol Specification, IP networking.
#[inline]
pub fn one_packet()
    ensures { OnePacket }
{}

/// Each byte list spells one packet, or is refused for one reason, and not both. M17 Protocol Specification, IP
/// networking.
#[inline]
pub fn reading_is_exact()
    ensures { ReadingIsExact }
{
    m17_lsd::laws::fields_are_exact();
    m17_lsd::laws::each_28_bytes_are_link_setup_data();
    m17_crc::laws::crc_has_16_bits();
    m17_fields::laws::fields_of_16_bits_are_exact();
}
