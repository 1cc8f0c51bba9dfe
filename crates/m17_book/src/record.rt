use m17_callsign::CallAddress;
use m17_control::{Tag, Why};
use m17_floor::Verdict;
use m17_stream::StreamPacket;
use m17_values::Member;

/// What a module's book says of one of its events.
#[derive(Clone, Copy, Debug, PartialEq, Eq)]
pub enum Record {
    /// A member came in, to listen only or to speak too.
    Join {
        tag: Tag,
        moment: u64,
        member: Member,
        listen: bool,
        callsign: CallAddress,
    },
    /// A member left.
    Leave {
        tag: Tag,
        moment: u64,
        member: Member,
        why: Why,
    },
    /// A member sent a voice frame, and this is what the module decided.
    Packet {
        tag: Tag,
        moment: u64,
        member: Member,
        verdict: Verdict,
        packet: StreamPacket,
    },
}
