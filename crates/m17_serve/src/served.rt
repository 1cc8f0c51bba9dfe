use m17_ports::Shelf;
use m17_print::{Ending, NoReason};
use m17_reflect::{Refused, Returned};

/// How `serve` came to its end.
#[derive(Clone, Copy, Debug, PartialEq, Eq)]
pub enum ServeEnding {
    /// Each link came to its end. The lines were written.
    Finished,
    /// A link failed 16 times in a row. The lines were written.
    LinkLost,
    /// A trace or a book failed, and no link was lost. The lines were written.
    BookFailed,
    /// The reflector ran, and the sink failed.
    WriteFailed,
    /// The ports failed. Nothing was written.
    PortFailed,
    /// The crew refused to start a job. Nothing was written.
    CrewRefused,
    /// There was no memory. Nothing was heard or written.
    NoMemory,
}

impl ServeEnding {
    ghost use Rattle.std.specs.Prelude.{◌≡◌};
    ghost use Rattle.m17_serve.specs.Endings.{serve_ending};

    /// The same among all the ways that a run may end.
    pub fn into_ending(self) -> Ending<NoReason>
        ensures { result ≡ serve_ending self }
    {
        match self {
            ServeEnding::Finished => Ending::Finished,
            ServeEnding::LinkLost => Ending::LinkLost,
            ServeEnding::BookFailed => Ending::BookFailed,
            ServeEnding::WriteFailed => Ending::WriteFailed,
            ServeEnding::PortFailed => Ending::PortFailed,
            ServeEnding::CrewRefused => Ending::CrewRefused,
            ServeEnding::NoMemory => Ending::NoMemory,
        }
    }
}

/// What `serve` came to: its ending, and the devices, with what went through the threads where the reflector ran, and with
/// the reason where it refused to; and with a board the book of its lines.
#[derive(Drop)]
pub struct Served<E, M, B> {
    /// How it ended.
    pub ending: ServeEnding,
    /// What the reflector handed back, where it ran.
    pub house: Option<Returned<E, M, Shelf<B>>>,
    /// What it handed back where it refused to run.
    pub refused: Option<Refused<E, M, Shelf<B>>>,
    /// Where the lines of the board were written. Some exactly where the watch of a board was joined.
    pub board: Option<B>,
}
