use m17_print::{Ending, NoReason};

/// How `bridge` came to its end.
#[derive(Clone, Copy, Debug, PartialEq, Eq)]
pub enum BridgeEnding {
    /// The bridge ran until an ear said End or a client was closed. Its line was written.
    Finished,
    /// The bridge ran until an ear failed 16 times in a row. Its line was written.
    LinkLost,
    /// The bridge ran, and the sink failed.
    WriteFailed,
    /// The ports failed. Nothing was written.
    PortFailed,
}

impl BridgeEnding {
    ghost use Rattle.std.specs.Prelude.{◌≡◌};
    ghost use Rattle.m17_client_commands.specs.BridgeCommandEndings.{bridge_ending};

    /// The same among all the ways that a run may end.
    pub fn into_ending(self) -> Ending<NoReason>
        ensures { result ≡ bridge_ending self }
    {
        match self {
            BridgeEnding::Finished => Ending::Finished,
            BridgeEnding::LinkLost => Ending::LinkLost,
            BridgeEnding::WriteFailed => Ending::WriteFailed,
            BridgeEnding::PortFailed => Ending::PortFailed,
        }
    }
}

/// What `bridge` came to: its ending, and its devices, where it ran.
#[derive(Debug, Drop)]
pub struct Bridged<E, M> {
    /// How it ended.
    pub ending: BridgeEnding,
    /// The ear and the mouth of each side, near first.
    pub devices: Option<((E, M), (E, M))>,
}
