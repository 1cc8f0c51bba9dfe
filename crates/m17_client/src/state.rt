use arrayvec::ArrayVec;
use m17_stream::StreamPacket;
use m17_values::Gram;

/// The most bytes of a datagram that a client says: a stream packet's.
pub const SAID_BYTES: usize = 54;

/// Why a client is closed.
#[derive(Clone, Copy, Debug, PartialEq, Eq)]
pub enum Ending {
    /// The user left.
    Asked,
    /// The reflector answered with NACK.
    Refused,
    /// Nothing was heard for 30,000 ms.
    Lost,
    /// The reflector said DISC.
    Dropped,
    /// None of five CONNs was answered.
    NoAnswer,
}

/// What a client is doing. Moments are milliseconds.
#[derive(Clone, Copy, Debug, PartialEq, Eq)]
pub enum State {
    /// Nothing was said yet.
    Idle,
    /// So many CONNs, or LSTNs, were said, and none was answered yet.
    Connecting { tries: u32 },
    /// It is in its module, and was last heard from the reflector at this moment.
    Connected { heard_at: u64 },
    /// It said DISC, and waits for the answer.
    Leaving,
    /// It is done.
    Closed(Ending),
}

/// The last packet that a client kept.
#[derive(Clone, Copy, Debug, PartialEq, Eq)]
pub struct LastKept {
    /// Its stream id.
    pub sid: u16,
    /// Its frame number.
    pub number: u16,
}

/// What a client steps on. Moments are milliseconds.
#[derive(Clone, Debug, Drop)]
pub enum Input {
    /// A datagram came from the reflector at this moment.
    Datagram { at: u64, bytes: Gram },
    /// Nothing came from it until this moment.
    Quiet { at: u64 },
    /// The user has a packet to send.
    Send { packet: StreamPacket },
    /// The user leaves.
    Leave,
}

/// What a step asks for.
#[derive(Clone, Debug, Drop)]
pub enum Action {
    /// Say a datagram of these bytes to the reflector.
    Say(ArrayVec<u8, SAID_BYTES>),
    /// Keep this packet.
    Keep(StreamPacket),
}

impl Default for Action {
    /// The blank of a place that is not used: to say a datagram without bytes.
    fn default() -> Action {
        Action::Say(ArrayVec::new())
    }
}
