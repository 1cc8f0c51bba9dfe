use crate::Request;
use m17_values::Peer;

/// A request that was heard and waits for a claim: the index of its entry, the peer, and what it asks for.
#[derive(Clone, Copy, Debug, PartialEq, Eq)]
pub struct Asked {
    /// The index of the entry, from 0.
    pub index: u64,
    /// The peer.
    pub peer: Peer,
    /// What it asks for.
    pub request: Request,
}
