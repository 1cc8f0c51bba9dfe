//! Sample addresses, peers and packets for tests, and nothing else: crates above name it in their tests alone. It promises what
//! each sample is; what is done with it is the test's.
#![tactic(auto)]

ghost use Rattle.std.specs.Prelude.{◌≡◌, ◌%◌, take};
ghost use Rattle.m17_values.specs.declared.heard.Heard.TheVariants.{Datagram};
ghost use Rattle.m17_samples.specs.Peers.{sample_peer};

use m17_lsd::Lsd;
use m17_stream::StreamPacket;
use m17_values::{Address, Gram, Heard, Member, Peer};

/// The address of `AB1CD`.
pub fn ab1cd() -> Address
    ensures { result ≡ 0x9FDD51 }
{
    match Address::new(0x9F_DD51) {
        Some(address) => address,
        None => unreachable!(),
    }
}

/// The address of `N0CALL`.
pub fn n0call() -> Address
    ensures { result ≡ 0x4B13D106 }
{
    match Address::new(0x4B13_D106) {
        Some(address) => address,
        None => unreachable!(),
    }
}

/// The peer 10.0.0.`host`, port 17000.
pub fn peer(host: u8) -> Peer
    ensures { result ≡ sample_peer host }
{
    let mut ip = [0; 16];
    ip[0] = 10;
    ip[3] = host;
    Peer {
        six: false,
        ip,
        port: 17_000,
    }
}

/// These bytes, or the first 64 where there are more, came from the peer of this host at this moment.
pub fn said(host: u8, at: u64, bytes: &[u8]) -> Heard
    ensures { result ≡ Datagram (sample_peer host) at (take 64 bytes.now) }
{
    Heard::Datagram {
        from: peer(host),
        at,
        bytes: Gram::of(bytes),
    }
}

/// The member at this place, of this generation.
pub fn member(place: u32, generation: u64) -> Member
    ensures place { result.place ≡ place }
    ensures generation { result.generation ≡ generation }
{
    Member { place, generation }
}

/// A voice frame of `AB1CD` to everyone, of this stream, with this number (of 15 bits) and this end bit; META and the
/// payload are zero.
pub fn frame(sid: u16, number: u16, last: bool) -> StreamPacket
    ensures sid { result.sid ≡ sid }
    ensures number { result.number ≡ number % 32768 }
    ensures last { result.last ≡ last }
{
    StreamPacket {
        sid,
        lsd: Lsd {
            dst: Address::broadcast(),
            src: ab1cd(),
            kind: 5,
            meta: [0; 14],
        },
        number: number % 32_768,
        last,
        payload: [0; 16],
    }
}
