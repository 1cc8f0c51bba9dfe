ghost use Rattle.m17_callsign.specs.Laws.{EachAddressHasOneCallsign};

/// Each address from 1 to 40^9 + 40^8 - 1, but for 40^9, has exactly one callsign, and no other address has one. M17
/// Protocol Specification, address encoding.
pub fn each_address_has_one_callsign()
    ensures { EachAddressHasOneCallsign }
{}
