ghost use Rattle.std.specs.Prelude.{◌≡◌, ◌<◌, ◌^◌};
ghost use Rattle.m17_callsign.specs.AddressBytes.{address_bytes};

use m17_fields::{bytes_48, get_48};
use m17_values::Address;

/// The six bytes of an address, the most significant first. M17 Protocol Specification, address encoding.
pub fn to_bytes(a: Address) -> [u8; 6]
    ensures bytes { result ≡ address_bytes a }
    ensures within { a < 2 ^ 48 }
{
    bytes_48(a.value())
}

/// The address of six bytes, the most significant first. Each six bytes are an address. M17 Protocol Specification,
/// address encoding.
pub fn from_bytes(b: &[u8; 6]) -> Address
    ensures bytes { address_bytes result ≡ b.now }
    ensures within { result < 2 ^ 48 }
{
    Address::new(get_48(b, 0)).unwrap()
}
