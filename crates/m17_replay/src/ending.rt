use crate::TraceReason;
use m17_print::Ending;

/// How `replay` came to its end.
#[derive(Clone, Copy, Debug, PartialEq, Eq)]
pub enum ReplayEnding {
    /// The trace was heard to its end, and all that it came to was written.
    Finished,
    /// The link was lost by 16 faults in a row, and all that was heard until then was written.
    LinkLost,
    /// The input is no trace: refused at this place, for this reason. Nothing was written.
    Refused { place: u64, reason: TraceReason },
    /// The crew refused to start a thread. Nothing was heard or written.
    CrewRefused,
    /// The source failed. Nothing was written.
    ReadFailed,
    /// The sink failed.
    WriteFailed,
}

impl ReplayEnding {
    ghost use Rattle.std.specs.Prelude.{◌≡◌};
    ghost use Rattle.m17_replay.specs.Endings.{replay_ending};

    /// The same among all the ways that a run may end.
    pub fn into_ending(self) -> Ending<TraceReason>
        ensures { result ≡ replay_ending self }
    {
        match self {
            ReplayEnding::Finished => Ending::Finished,
            ReplayEnding::LinkLost => Ending::LinkLost,
            ReplayEnding::Refused { place, reason } => Ending::Refused { place, reason },
            ReplayEnding::CrewRefused => Ending::CrewRefused,
            ReplayEnding::ReadFailed => Ending::ReadFailed,
            ReplayEnding::WriteFailed => Ending::WriteFailed,
        }
    }
}
