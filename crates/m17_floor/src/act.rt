use m17_stream::StreamPacket;
use m17_values::Member;

/// What a module's floor sees of an event.
#[derive(Clone, Copy, Debug, PartialEq, Eq)]
pub enum ActKind {
    /// A member joins, perhaps to listen only.
    Join {
        member: Member,
        listens: bool,
    },
    /// A member leaves.
    Leave {
        member: Member,
    },
    /// A member, or one that was, sends a packet.
    Packet {
        member: Member,
        packet: StreamPacket,
    },
    /// Anything else that happens in the module.
    Other,
}

/// What a module's floor sees of an event, and its moment.
#[derive(Clone, Copy, Debug, PartialEq, Eq)]
pub struct Act {
    /// The moment that came with it, in milliseconds. It may be below that of an earlier act.
    pub at: u64,
    /// What happened.
    pub kind: ActKind,
}
