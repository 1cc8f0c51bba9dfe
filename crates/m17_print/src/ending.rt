ghost use Rattle.std.specs.Prelude.{◌≡◌, ◌+◌, ◌≤◌, ◌++◌, [], length};
ghost use Rattle.m17_print.specs.Line.{room, reason_room};

use crate::Line;

/// Why a command refuses its input. Each command has reasons of its own.
pub trait Reason {
    ghost use Rattle.std.specs.Prelude.{ℕ, List};

    /// Its words.
    ghost words: { Self → List ℕ };

    /// Appends its words, as in `cut`: 16 bytes at the most.
    fn push_to(&self, line: &mut Line)
        requires { length line.old + reason_room ≤ room }
        ensures appended { line.new ≡ line.old ++ words self.now }
        ensures longer { length line.new ≤ length line.old + reason_room };
}

/// No reason: of a run whose input is refused for none.
#[derive(Clone, Copy, Debug, PartialEq, Eq)]
pub struct NoReason;

impl Reason for NoReason {
    ghost use Rattle.std.specs.Prelude.{[]};

    ghost words = { λ _. [] };

    fn push_to(&self, _line: &mut Line) {}
}

/// How a run of the program came to its end: all the ways that there are. Each command answers a type of its own, which
/// has those that it can come to, and is made one of these.
#[derive(Clone, Copy, Debug, PartialEq, Eq)]
pub enum Ending<R> {
    /// The command went to its end.
    Finished,
    /// The input was refused at this place, for this reason.
    Refused { place: u64, reason: R },
    /// The words name no command.
    WordsRefused,
    /// The source failed.
    ReadFailed,
    /// The sink failed.
    WriteFailed,
    /// The ports failed.
    PortFailed,
    /// The crew refused to start a thread.
    CrewRefused,
    /// A link was lost by its faults.
    LinkLost,
    /// A trace or a book failed, and no link was lost.
    BookFailed,
    /// There was no memory.
    NoMemory,
}

/// How a command came to its end that reads its input, prints, and asks for nothing more.
#[derive(Clone, Copy, Debug, PartialEq, Eq)]
pub enum TextEnding<R> {
    /// The input was read to its end, and every line of the answer was written.
    Finished,
    /// The input was refused at this place, for this reason. The lines before it were written.
    Refused { place: u64, reason: R },
    /// The source failed. The lines of what was taken whole were written.
    ReadFailed,
    /// The sink failed.
    WriteFailed,
}

impl<R: Copy> TextEnding<R> {
    ghost use Rattle.m17_print.specs.Endings.{text_ending};

    /// The same among all the ways that there are.
    pub fn into_ending(self) -> Ending<R>
        ensures { result ≡ text_ending self }
    {
        match self {
            TextEnding::Finished => Ending::Finished,
            TextEnding::Refused { place, reason } => Ending::Refused { place, reason },
            TextEnding::ReadFailed => Ending::ReadFailed,
            TextEnding::WriteFailed => Ending::WriteFailed,
        }
    }
}

impl Line {
    ghost use Rattle.m17_print.specs.Endings.{last_line, input_refused_line};

    /// Makes the last line of a run that ended so, which is empty where it has none.
    pub fn make_last<R: Reason>(&mut self, ending: &Ending<R>)
        ensures { self.new ≡ last_line R.words ending.now }
    {
        self.clear();
        match ending {
            Ending::Refused { place, reason } => self.push_input_refused(*place, reason),
            Ending::WordsRefused => self.push_text("words refused\n"),
            Ending::ReadFailed => self.push_text("read failed\n"),
            Ending::PortFailed => self.push_text("port failed\n"),
            Ending::CrewRefused => self.push_text("crew refused\n"),
            Ending::LinkLost => self.push_text("link lost\n"),
            Ending::BookFailed => self.push_text("book failed\n"),
            Ending::Finished | Ending::WriteFailed | Ending::NoMemory => {}
        }
    }

    // Appends the line that says where and why the input is refused.
    fn push_input_refused<R: Reason>(&mut self, place: u64, reason: &R)
        requires { self.old ≡ [] }
        ensures { self.new ≡ input_refused_line place (R.words reason.now) }
    {
        self.push_text("input refused at ");
        self.push_number(place);
        self.push_text(": ");
        reason.push_to(self);
        self.push_byte(b'\n');
    }
}
