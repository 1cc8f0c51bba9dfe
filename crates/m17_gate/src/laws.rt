//! What holds of all texts, and what a gate does to packets, for callers to cite by name. Each is
//! a function without arguments, which does nothing and ensures the law.
ghost use Rattle.std.specs.Prelude.{[]};
ghost use Rattle.m17_gate.specs.Denied.{DeniedNeverReachesAModule};
ghost use Rattle.m17_gate.specs.Gated.{gate_told};
ghost use Rattle.m17_gate.specs.Laws.{BytesAskAsPackets, GateIsExact, DeniedIsNotHeard, IsHeardAs, NoRulesAreRefused, NoRulesLetAllThrough};

use m17_ports::Ear;

/// No text of rules is refused.
#[inline]
pub fn no_rules_are_refused()
    ensures { NoRulesAreRefused }
{}

/// The bytes of a datagram ask what the packet asks that they spell, and nothing where they spell
/// none.
pub fn bytes_ask_as_packets()
    ensures { BytesAskAsPackets }
{
    m17_fields::laws::fields_of_16_bits_are_exact();
    m17_crc::laws::crc_has_16_bits();
    m17_callsign::laws::each_address_has_one_callsign();
}

/// A gate replaces exactly the datagrams that spell a packet that is not allowed.
pub fn gate_is_exact()
    ensures { GateIsExact }
{
    bytes_ask_as_packets();
}

/// No datagram that is heard behind a gate spells a CONN, a LSTN or a stream packet that is not
/// allowed.
pub fn denied_is_not_heard()
    ensures { DeniedIsNotHeard }
{
    bytes_ask_as_packets();
}

/// A gate without rules hears what its ear hears, and fails where that does.
pub fn no_rules_change_nothing<E: Ear>()
    ensures entries { NoRulesLetAllThrough }
    ensures ears { (ear : E)
        → IsHeardAs (gate_told E.told (record { inner = ear; rules = [] })) (E.told ear) }
{}

/// No event that a link behind a gate routes to a module is a Join whose callsign is not allowed
/// there, to connect or to listen as it does, or a Packet whose sender is not allowed to speak.
pub fn denied_never_reaches_a_module()
    ensures { DeniedNeverReachesAModule }
{
    denied_is_not_heard();
}
