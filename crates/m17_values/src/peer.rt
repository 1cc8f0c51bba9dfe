ghost use Rattle.std.specs.Prelude.{◌≡◌, ◌/◌, ◌%◌, ◌^◌};
ghost use Rattle.std.specs.Int.{w128, from_be_bytes};
ghost use Rattle.std.proofs.Common.{rules};
ghost use Rattle.std.specs.Cmp.{partial_order_from_own_ties};
ghost use Rattle.std.specs.Cmp.Lexicographic.{slice_cmp};
ghost use Rattle.std.specs.Cmp.Rules.{comparing};
ghost use Rattle.std.specs.Ordering.{nat_cmp, as_partial_cmp};
ghost use Rattle.m17_values.specs.Peers.{peer_cmp};

use std::cmp::Ordering;

/// A peer: who a datagram came from, or goes to. Peers are ordered by their fields in turn.
#[derive(Clone, Copy, Debug, PartialEq, Eq)]
pub struct Peer {
    /// Whether the address is one of IPv6.
    pub six: bool,
    /// The address: 16 bytes of IPv6, or 4 of IPv4 and then zeros.
    pub ip: [u8; 16],
    /// The UDP port.
    pub port: u16,
}

impl PartialOrd for Peer {
    ghost partial_cmp = { as_partial_cmp peer_cmp };

    ghost laws = { partial_order_from_own_ties (Prim.search (comparing, rules))
        (Prim.search (comparing, rules)) };

    fn partial_cmp(&self, other: &Peer) -> Option<Ordering> {
        Some(self.cmp(other))
    }
}

impl Ord for Peer {
    ghost cmp = { peer_cmp };

    ghost total = { Prim.search (comparing, rules) };

    ghost matches_partial_cmp = { Prim.search (comparing, rules) };

    ghost matches_eq = { Prim.search (comparing, rules) };

    fn cmp(&self, other: &Peer) -> Ordering {
        if self.six != other.six {
            return self.six.cmp(&other.six);
        }
        let addresses = address_order(&self.ip, &other.ip);
        if addresses.is_ne() {
            return addresses;
        }
        self.port.cmp(&other.port)
    }
}

// The order of two addresses, byte by byte, as that of the numbers that they spell, the first byte the greatest. It is
// read off their halves, since most differ in the first.
fn address_order(a: &[u8; 16], b: &[u8; 16]) -> Ordering
    ensures { result ≡ slice_cmp nat_cmp a.now b.now }
{
    let (x, y) = (first_half(a), first_half(b));
    if x != y {
        return x.cmp(&y);
    }
    last_half(a).cmp(&last_half(b))
}

// The number that the first eight bytes spell.
fn first_half(ip: &[u8; 16]) -> u64
    ensures { result ≡ from_be_bytes w128 ip.now / 2 ^ 64 }
{
    u64::from_be_bytes([ip[0], ip[1], ip[2], ip[3], ip[4], ip[5], ip[6], ip[7]])
}

// The number that the last eight bytes spell.
fn last_half(ip: &[u8; 16]) -> u64
    ensures { result ≡ from_be_bytes w128 ip.now % 2 ^ 64 }
{
    u64::from_be_bytes([ip[8], ip[9], ip[10], ip[11], ip[12], ip[13], ip[14], ip[15]])
}
