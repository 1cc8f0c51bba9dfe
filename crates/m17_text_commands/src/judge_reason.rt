use m17_print::{Line, Reason};

/// Why `judge` refuses its input.
#[derive(Clone, Copy, Debug, PartialEq, Eq)]
pub enum JudgeReason {
    /// The input ends inside a record.
    Cut,
    /// The input has more records than `judge` takes.
    Large,
}

impl Reason for JudgeReason {
    ghost use Rattle.m17_text_commands.specs.JudgeReasons.{judge_reason_words};

    ghost words = { judge_reason_words };

    fn push_to(&self, line: &mut Line) {
        match self {
            JudgeReason::Cut => line.push_text("cut"),
            JudgeReason::Large => line.push_text("large"),
        }
    }
}
