use m17_print::{Line, Reason};

/// Why `check` refuses its input: it is no book, or the book isn't legal.
#[derive(Clone, Copy, Debug, PartialEq, Eq)]
pub enum CheckReason {
    /// The input ends inside the header, a record or a field.
    Cut,
    /// An unknown kind of record, with its byte.
    Kind(u8),
    /// A field has a value that is not allowed.
    Field,
    /// The input has too many bytes.
    Large,
    /// A record's moment is below that of the record before it.
    Moment,
    /// A Join is at a place that is held, or a Leave of a member that isn't in.
    Member,
    /// The verdict that was kept isn't that of the floor rule.
    Verdict,
}

impl Reason for CheckReason {
    ghost use Rattle.m17_text_commands.specs.CheckReasons.{check_reason_words};

    ghost words = { check_reason_words };

    fn push_to(&self, line: &mut Line) {
        match self {
            CheckReason::Cut => line.push_text("cut"),
            CheckReason::Kind(byte) => {
                line.push_text("kind ");
                line.push_hex(&[*byte]);
            }
            CheckReason::Field => line.push_text("field"),
            CheckReason::Large => line.push_text("large"),
            CheckReason::Moment => line.push_text("moment"),
            CheckReason::Member => line.push_text("member"),
            CheckReason::Verdict => line.push_text("verdict"),
        }
    }
}
