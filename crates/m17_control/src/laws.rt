//! What holds of all bytes. Each is a function without arguments, which does nothing and ensures the law.
ghost use Rattle.m17_control.specs.Laws.{DecodingIsExact, SetsAreTheirLetters};

/// Each byte list spells one packet, or is refused for one reason, and not both; and no two byte lists spell the same
/// packet. M17 Protocol Specification, IP networking; the forms of control packets are this profile's.
#[inline]
pub fn decoding_is_exact()
    ensures { DecodingIsExact }
{
    m17_fields::laws::fields_of_48_bits_are_exact();
    m17_callsign::laws::each_address_has_one_callsign();
    m17_stream::laws::reading_is_exact();
    m17_stream::laws::one_packet();
}

/// Sets of modules with the same letters are equal.
#[inline]
pub fn sets_are_their_letters()
    ensures { SetsAreTheirLetters }
{}
