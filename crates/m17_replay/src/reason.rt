use m17_print::{Line, Reason};

/// Why `replay` refuses its input: it is no trace.
#[derive(Clone, Copy, Debug, PartialEq, Eq)]
pub enum TraceReason {
    /// The input ends inside the header, an entry or a field.
    Cut,
    /// An unknown kind of entry, with its byte.
    Kind(u8),
    /// A field has a value that is not allowed.
    Field,
    /// The input has too many bytes, or too many entries.
    Large,
}

impl Reason for TraceReason {
    ghost use Rattle.m17_replay.specs.Reasons.{trace_reason_words};

    ghost words = { trace_reason_words };

    fn push_to(&self, line: &mut Line) {
        match self {
            TraceReason::Cut => line.push_text("cut"),
            TraceReason::Kind(byte) => {
                line.push_text("kind ");
                line.push_hex(&[*byte]);
            }
            TraceReason::Field => line.push_text("field"),
            TraceReason::Large => line.push_text("large"),
        }
    }
}
