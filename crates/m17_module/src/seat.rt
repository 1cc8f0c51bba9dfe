use m17_values::{Member, Peer};

/// A member that is in a module, as its Join named it.
#[derive(Clone, Copy, Debug)]
pub struct Seat {
    /// The member.
    pub member: Member,
    /// The link of its peer, from 0.
    pub link: u8,
    /// Its peer.
    pub peer: Peer,
    /// Whether it joined to listen only.
    pub listens: bool,
}
