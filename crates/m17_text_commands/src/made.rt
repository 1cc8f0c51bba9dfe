use crate::hotspot::Hotspot;

// What an entry is: something that a hotspot sends, or quiet.
#[derive(Clone, Copy, Debug)]
pub(crate) enum Made {
    // It asks to join its module.
    Conn {
        hotspot: Hotspot,
    },
    // It answers a PING, or says so unasked.
    Pong {
        hotspot: Hotspot,
    },
    // It sends a voice frame.
    Frame {
        hotspot: Hotspot,
        sid: u16,
        number: u16,
        last: bool,
    },
    // Nothing comes.
    Quiet,
}
