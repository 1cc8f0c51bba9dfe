/// How a run of the program ended.
#[derive(Clone, Copy, Debug, PartialEq, Eq)]
pub enum Status {
    /// The input was read to its end.
    Finished,
    /// The input is refused.
    InputRefused,
    /// The words are refused.
    WordsRefused,
    /// The source failed.
    ReadFailed,
    /// The sink failed, in place of all others.
    WriteFailed,
    /// The ports failed.
    PortFailed,
    /// The crew refused to start a thread.
    CrewRefused,
    /// A link was lost by its faults.
    LinkLost,
    /// A book failed, and no link was lost.
    BookFailed,
    /// There was no memory.
    NoMemory,
}

impl Status {
    ghost use Rattle.std.specs.Prelude.{◌≡◌};
    ghost use Rattle.m17_app.specs.Status.{code_of};

    /// The number that the program ends with.
    pub fn code(self) -> u8
        ensures { result ≡ code_of self }
    {
        match self {
            Status::Finished => 0,
            Status::InputRefused => 1,
            Status::WordsRefused => 2,
            Status::ReadFailed => 3,
            Status::WriteFailed => 4,
            Status::PortFailed => 5,
            Status::CrewRefused => 6,
            Status::LinkLost => 7,
            Status::BookFailed => 8,
            Status::NoMemory => 70,
        }
    }
}
