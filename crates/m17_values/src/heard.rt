use super::gram::Gram;
use super::peer::Peer;

/// What the receiving half of a socket tells at a call. Moments are milliseconds.
#[derive(Clone, Debug, PartialEq, Eq, Drop)]
pub enum Heard {
    /// A datagram came from this peer at this moment.
    Datagram { from: Peer, at: u64, bytes: Gram },
    /// Nothing came until this moment.
    Quiet { at: u64 },
    /// The socket failed.
    Fault,
    /// Nothing more will come.
    End,
}
