use crate::{Control, Why};
use m17_stream::StreamPacket;
use m17_values::{Member, Peer};

/// What a module says to one of its members.
#[derive(Clone, Copy, Debug, PartialEq, Eq)]
pub enum Said {
    /// It has joined. To be said when at least `after` departed members of its link were reported.
    Hello { after: u64 },
    /// The frame that was admitted as the module's event at this position, from 0.
    Frame { position: u64, packet: StreamPacket },
    /// A frame of its own recording, given out at the module's event at this position.
    Echo { position: u64, packet: StreamPacket },
    /// An answer.
    Reply { control: Control },
    /// A question whether it is there.
    Ping,
    /// It has left.
    Bye { why: Why },
}

/// Something that a module says, and to whom.
#[derive(Clone, Copy, Debug, PartialEq, Eq)]
pub struct Item {
    /// The member that it is for.
    pub member: Member,
    /// The link of the member's peer, from 0.
    pub link: u8,
    /// The member's peer.
    pub peer: Peer,
    /// What is said.
    pub body: Said,
}

/// A reply that goes to a peer past all modules: a NACK, or a DISC of 4 bytes.
#[derive(Clone, Copy, Debug, PartialEq, Eq)]
pub struct Direct {
    /// The peer's link, from 0.
    pub link: u8,
    /// The peer.
    pub peer: Peer,
    /// The reply.
    pub control: Control,
}
