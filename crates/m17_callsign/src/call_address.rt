ghost use Rattle.std.specs.Prelude.{◌≡◌, ◌<◌, ◌^◌, ◌↔◌, IsSome, IfSome};

use m17_values::Address;
use std::marker::Model;

/// 40^9: the first address above those of callsigns of nine letters or fewer. The address of a group is this and the
/// sum of its letters.
pub const END_OF_CALLSIGNS: u64 = 262_144_000_000_000;

/// 40^9 + 40^8: the first address above those of groups, which have eight letters or fewer.
const END_OF_GROUPS: u64 = 268_697_600_000_000;

/// An address that has a callsign, of a station or of a group: 1 to 40^9 - 1, or 40^9 + 1 to 40^9 + 40^8 - 1.
/// Contracts see the number. M17 Protocol Specification, address encoding; the form of groups is this project's own.
#[derive(Clone, Copy, Debug, PartialEq, Eq, PartialOrd, Ord)]
pub struct CallAddress(u64);

impl Model for CallAddress {
    ghost use Rattle.std.specs.Prelude.{ℕ};
    ghost use Rattle.m17_callsign.specs.Callsign.{HasCallsign};

    ghost Value = { ℕ };

    ghost view = { λ a. a.0 };

    ghost invariant = { λ a. HasCallsign a.0 };

    ghost inverse = { λ n. record { 0 = n } };
}

impl CallAddress {
    ghost use Rattle.m17_callsign.specs.Callsign.{HasCallsign};

    /// The same address, where it has a callsign; none for 0, for 40^9, and for 40^9 + 40^8 and above. M17 Protocol
    /// Specification, address encoding.
    pub fn new(address: Address) -> Option<CallAddress>
        ensures in_range { IsSome result ↔ HasCallsign address }
        ensures same { IfSome result (λ call. call ≡ address) }
    {
        let value = address.value();
        if value > 0 && value < END_OF_GROUPS && value != END_OF_CALLSIGNS {
            Some(CallAddress(value))
        } else {
            None
        }
    }

    /// The same address. M17 Protocol Specification, address encoding.
    pub fn address(self) -> Address
        ensures same { result ≡ self }
        ensures in_range { HasCallsign result }
    {
        Address::new(self.0).unwrap()
    }
}
