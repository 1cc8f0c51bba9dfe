ghost use Rattle.std.specs.Prelude.{◌≡◌, ◌++◌, replicate, true, false, take};
ghost use Rattle.std.specs.Net.Addr.{ipv4_octets};
ghost use Rattle.m17_net.specs.Address.{HasFour, HasIp, IsPeerAt, IsAddressOf, Reaches};

use m17_values::Peer;
use std::net::{IpAddr, Ipv4Addr, Ipv6Addr, SocketAddr};

/// How many bytes an IPv4 address has.
const FOUR_BYTES: usize = 4;

/// The peer at an address of a socket. An IPv4 address that a socket of IPv6 shows within one of its own (IPv4-mapped)
/// is the IPv4 address. The zone and the flow label of an IPv6 address are left out.
pub fn peer_at(address: SocketAddr) -> Peer
    ensures { IsPeerAt address result }
{
    let port = address.port();
    match address.ip().to_canonical() {
        IpAddr::V4(ip) => Peer {
            six: false,
            ip: padded(ip.octets()),
            port,
        },
        IpAddr::V6(ip) => Peer {
            six: true,
            ip: ip.octets(),
            port,
        },
    }
}

// An IPv4 address as a peer has it: zeros stand behind it.
fn padded(octets: [u8; 4]) -> [u8; 16]
    ensures { result ≡ octets ++ replicate 12 0 }
{
    let mut ip = [0; 16];
    ip[..FOUR_BYTES].copy_from_slice(&octets);
    ip
}

/// The address to which a socket sends what goes to a peer; `six` says whether the socket is one of IPv6. Such a socket
/// reaches an IPv4 peer by the IPv6 address that holds its own (IPv4-mapped). A socket of IPv4 is given the IPv6 address
/// of an IPv6 peer, and cannot send to it.
pub fn address_of(peer: &Peer, six: bool) -> SocketAddr
    ensures { IsAddressOf six peer.now result }
{
    SocketAddr::new(ip_of(peer, six), peer.port)
}

// The IP address of the same.
fn ip_of(peer: &Peer, six: bool) -> IpAddr
    ensures { Reaches six result peer.now }
{
    if peer.six {
        return IpAddr::V6(Ipv6Addr::from_octets(peer.ip));
    }
    let four = four_of(&peer.ip);
    if six {
        IpAddr::V6(four.to_ipv6_mapped())
    } else {
        IpAddr::V4(four)
    }
}

// The IPv4 address that stands in front.
fn four_of(ip: &[u8; 16]) -> Ipv4Addr
    ensures { ipv4_octets result ≡ take 4 ip.now }
{
    let mut octets = [0; FOUR_BYTES];
    octets.copy_from_slice(&ip[..FOUR_BYTES]);
    Ipv4Addr::from_octets(octets)
}
