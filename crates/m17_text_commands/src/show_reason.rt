use m17_print::{Line, Reason};

/// Why `show` refuses its input.
#[derive(Clone, Copy, Debug, PartialEq, Eq)]
pub enum ShowReason {
    /// The input has more lines than `show` takes.
    Large,
    /// A line has more than 256 bytes.
    Long,
    /// A line has an odd number of bytes.
    Odd,
    /// A byte of a line is no hex digit.
    Digit,
}

impl Reason for ShowReason {
    ghost use Rattle.m17_text_commands.specs.ShowReasons.{show_reason_words};

    ghost words = { show_reason_words };

    fn push_to(&self, line: &mut Line) {
        match self {
            ShowReason::Large => line.push_text("large"),
            ShowReason::Long => line.push_text("long"),
            ShowReason::Odd => line.push_text("odd"),
            ShowReason::Digit => line.push_text("digit"),
        }
    }
}
