use m17_control::{ModuleLetter, Refusal};

/// What was routed to a module.
#[derive(Clone, Copy, Debug, PartialEq, Eq)]
pub enum Act {
    /// A peer joined.
    Join,
    /// A member asked again for what it has, and is acknowledged.
    Again,
    /// A member left.
    Leave,
    /// A member asked whether the reflector is there, and is answered.
    Pong,
    /// A member sent a voice frame.
    Packet,
}

/// What an entry of a link became.
#[derive(Clone, Copy, Debug, PartialEq, Eq)]
pub enum LinkVerdict {
    /// It went to this module.
    Routed { module: ModuleLetter, act: Act },
    /// A member of this module told that it is there.
    Alive { module: ModuleLetter },
    /// A peer asks for a place: `settle` says what becomes of it.
    Asks,
    /// Its bytes are no packet.
    Refused(Refusal),
    /// It came from a peer that isn't known.
    NotConnected,
    /// It asked for this module, which isn't served.
    NotServed { module: ModuleLetter },
    /// No place was free.
    Full,
    /// A packet that only the reflector says.
    Stray,
    /// Nothing but time went by.
    Timed,
    /// The socket failed.
    Faulted,
    /// The link ended.
    Ended,
}
