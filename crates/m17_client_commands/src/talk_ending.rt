use crate::ScriptReason;
use m17_ports::Shelf;
use m17_print::Ending;

/// How `talk` came to its end.
#[derive(Clone, Copy, Debug, PartialEq, Eq)]
pub enum TalkEnding {
    /// The talk ran: the client closed, or its ear said End. Its line was written.
    Finished,
    /// The talk ran until its ear failed 16 times in a row. Its line was written.
    LinkLost,
    /// The talk ran, and its book failed. Its line was written.
    BookFailed,
    /// The input is no script: refused at this place, for this reason. Nothing was written.
    Refused { place: u64, reason: ScriptReason },
    /// The source failed. Nothing was written.
    ReadFailed,
    /// The sink failed.
    WriteFailed,
    /// The ports failed. Nothing was written.
    PortFailed,
}

impl TalkEnding {
    ghost use Rattle.std.specs.Prelude.{◌≡◌};
    ghost use Rattle.m17_client_commands.specs.TalkEndings.{talk_ending};

    /// The same among all the ways that a run may end.
    pub fn into_ending(self) -> Ending<ScriptReason>
        ensures { result ≡ talk_ending self }
    {
        match self {
            TalkEnding::Finished => Ending::Finished,
            TalkEnding::LinkLost => Ending::LinkLost,
            TalkEnding::BookFailed => Ending::BookFailed,
            TalkEnding::Refused { place, reason } => Ending::Refused { place, reason },
            TalkEnding::ReadFailed => Ending::ReadFailed,
            TalkEnding::WriteFailed => Ending::WriteFailed,
            TalkEnding::PortFailed => Ending::PortFailed,
        }
    }
}

/// What `talk` came to: its ending, and its devices, where it ran.
#[derive(Debug, Drop)]
pub struct Talked<E, M, B> {
    /// How it ended.
    pub ending: TalkEnding,
    /// Its ear, its mouth, and its book, where one was named.
    pub devices: Option<(E, M, Shelf<B>)>,
}
