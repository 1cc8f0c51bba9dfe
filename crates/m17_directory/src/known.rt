use m17_callsign::CallAddress;
use m17_control::ModuleLetter;
use m17_values::{Member, Peer};

/// A known peer: which member it is of which module, what it joined as, and the moment at which it was last heard, in
/// milliseconds.
#[derive(Clone, Copy, Debug, PartialEq, Eq)]
pub struct Known {
    /// The peer.
    pub peer: Peer,
    /// The member that it is.
    pub member: Member,
    /// The letter of its module.
    pub letter: ModuleLetter,
    /// The callsign that it joined with.
    pub callsign: CallAddress,
    /// Whether it joined to listen only.
    pub listen: bool,
    /// The link's moment when it was last heard.
    pub heard_at: u64,
}

/// A member that has left, and whose leaving was not reported yet.
#[derive(Clone, Copy, Debug, PartialEq, Eq)]
pub struct Departed {
    /// The member.
    pub member: Member,
    /// The peer that it was.
    pub peer: Peer,
}

/// What a peer asks for by a CONN, or by a LSTN to listen only.
#[derive(Clone, Copy, Debug, PartialEq, Eq)]
pub struct Request {
    /// The letter of the module.
    pub letter: ModuleLetter,
    /// The callsign that it gives.
    pub callsign: CallAddress,
    /// Whether it asks to listen only.
    pub listen: bool,
}
