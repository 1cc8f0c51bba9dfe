use crate::Control;
use m17_callsign::CallAddress;
use m17_stream::StreamPacket;
use m17_values::{Member, Peer};

/// Which entry of which link an event comes from.
#[derive(Clone, Copy, Debug, PartialEq, Eq)]
pub struct Tag {
    /// The link, from 0.
    pub link: u8,
    /// The index of the entry in what the link heard, from 0.
    pub index: u64,
}

/// Why a member leaves.
#[derive(Clone, Copy, Debug, PartialEq, Eq)]
pub enum Why {
    /// Its peer sent a DISC.
    Asked,
    /// Its peer asked for another module, or as another kind or callsign.
    Moved,
    /// Nothing was heard of its peer for 30,000 ms.
    Silent,
    /// The link ended.
    Stopped,
    /// Another member took its place.
    Replaced,
}

/// What happens to a module.
#[derive(Clone, Copy, Debug, PartialEq, Eq)]
pub enum Body {
    /// A peer joins the module, to listen only or to speak too. It is greeted when at least `after` departed members
    /// of its link were reported.
    Join {
        member: Member,
        peer: Peer,
        callsign: CallAddress,
        listen: bool,
        after: u64,
    },
    /// A member leaves.
    Leave {
        member: Member,
        why: Why,
    },
    /// A member sent a voice frame.
    Packet {
        member: Member,
        packet: StreamPacket,
    },
    /// A member is owed an answer.
    Reply {
        member: Member,
        control: Control,
    },
    /// Time went by.
    Tick,
    /// The link ended.
    Stop,
}

/// An event of a module.
#[derive(Clone, Copy, Debug, PartialEq, Eq)]
pub struct Event {
    /// The entry that it comes from.
    pub tag: Tag,
    /// The moment of its link, in milliseconds.
    pub at: u64,
    /// What happens.
    pub body: Body,
}
