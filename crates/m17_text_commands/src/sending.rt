ghost use Rattle.std.specs.Prelude.{◌≡◌, ◌<◌, ◌≤◌, ◌≢◌, length};
ghost use Rattle.m17_values.specs.declared.heard.Heard.TheVariants.{Datagram, End};
ghost use Rattle.m17_text_commands.specs.Hotspots.{peer_of};
ghost use Rattle.m17_text_commands.specs.Made.{heard_as, frame_bytes, conn_bytes, pong_bytes, IsSound};

use crate::hotspot::Hotspot;
use crate::made::Made;
use arrayvec::ArrayVec;
use m17_control::{Control, write};
use m17_lsd::Lsd;
use m17_stream::StreamPacket;
use m17_values::{Address, Gram, Heard};

/// TYPE of a frame: a voice stream.
const VOICE: u16 = 5;

// What is heard at this moment, in milliseconds.
#[tactic(auto, unfolding(crate::specs::Made::heard_as))]
pub(crate) fn heard(at: u64, made: &Made) -> Heard
    requires { IsSound made.now }
    ensures heard { result ≡ heard_as at made.now }
    ensures not_end { result ≢ End }
{
    match *made {
        Made::Conn { hotspot } => datagram(hotspot, at, conn(hotspot).as_slice()),
        Made::Pong { hotspot } => datagram(hotspot, at, pong(hotspot).as_slice()),
        Made::Frame {
            hotspot,
            sid,
            number,
            last,
        } => datagram(hotspot, at, &frame(hotspot, sid, number, last)),
        Made::Quiet => Heard::Quiet { at },
    }
}

// A datagram of a hotspot.
fn datagram(from: Hotspot, at: u64, bytes: &[u8]) -> Heard
    requires { length bytes.now ≤ 64 }
    ensures { result ≡ Datagram (peer_of from) at bytes.now }
{
    Heard::Datagram {
        from: from.peer(),
        at,
        bytes: Gram::of(bytes),
    }
}

// The CONN of a hotspot to its module.
fn conn(hotspot: Hotspot) -> ArrayVec<u8, 11>
    ensures { result.items ≡ conn_bytes hotspot }
{
    write(&Control::Conn {
        from: hotspot.call(),
        module: hotspot.module(),
    })
}

// The PONG of a hotspot.
fn pong(hotspot: Hotspot) -> ArrayVec<u8, 11>
    ensures { result.items ≡ pong_bytes hotspot }
{
    write(&Control::Pong {
        from: hotspot.call(),
    })
}

// A voice frame of a hotspot, to everyone. Its number stands in each byte of the payload.
fn frame(hotspot: Hotspot, sid: u16, number: u16, last: bool) -> [u8; 54]
    requires { number < 32768 }
    ensures { result ≡ frame_bytes hotspot sid number last }
{
    m17_stream::write(&StreamPacket {
        sid,
        lsd: Lsd {
            dst: Address::broadcast(),
            src: hotspot.call().address(),
            kind: VOICE,
            meta: [0; 14],
        },
        number,
        last,
        payload: [(number % 256) as u8; 16],
    })
}
