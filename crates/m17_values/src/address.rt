ghost use Rattle.std.specs.Prelude.{◌≡◌, ◌<◌, ◌^◌, ◌↔◌, IsSome, IfSome};

use std::marker::Model;

/// How many addresses there are, 2^48.
const END_OF_ADDRESSES: u64 = 0x1_0000_0000_0000;

/// An address: a number below 2^48. Contracts see the number. M17 Protocol Specification, address encoding.
#[derive(Clone, Copy, Debug, PartialEq, Eq, PartialOrd, Ord)]
pub struct Address(u64);

impl Model for Address {
    ghost use Rattle.std.specs.Prelude.{ℕ, ◌^◌, ◌<◌};

    ghost Value = { ℕ };

    ghost view = { λ a. a.0 };

    ghost invariant = { λ a. a.0 < 2 ^ 48 };

    ghost inverse = { λ n. record { 0 = n } };
}

impl Address {
    ghost use Rattle.std.specs.Prelude.{◌-◌};

    /// The broadcast address, 2^48 - 1: to everyone. M17 Protocol Specification, address encoding.
    pub fn broadcast() -> Address
        ensures { result ≡ 2 ^ 48 - 1 }
    {
        Address(END_OF_ADDRESSES - 1)
    }

    /// The address of this number; none where it has more than 48 bits. M17 Protocol Specification, address encoding.
    #[inline]
    pub fn new(value: u64) -> Option<Address>
        ensures within { IsSome result ↔ (value < 2 ^ 48) }
        ensures value { IfSome result (λ a. a ≡ value) }
    {
        if value < END_OF_ADDRESSES {
            Some(Address(value))
        } else {
            None
        }
    }

    /// The number of the address, below 2^48. M17 Protocol Specification, address encoding.
    #[inline]
    pub fn value(self) -> u64
        ensures value { result ≡ self }
        ensures within { result < 2 ^ 48 }
    {
        self.0
    }
}
