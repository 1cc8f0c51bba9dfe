use m17_io::Fault;
use m17_print::{Line, Reason};

/// Why `talk` refuses its input: it is no script.
#[derive(Clone, Copy, Debug, PartialEq, Eq)]
pub enum ScriptReason {
    /// The input ends inside a record.
    Cut,
    /// A moment is below the one before it, or a packet is none.
    Field,
    /// The input has too many records.
    Large,
}

/// Why there is no script.
#[derive(Clone, Copy, Debug, PartialEq, Eq)]
pub enum ScriptFailure {
    /// The input is none: refused at this place, for this reason.
    Refused { place: u64, reason: ScriptReason },
    /// A device failed: the source, or the sink where it was to hand on what it held back.
    Device(Fault),
    /// There was no memory for it.
    NoMemory,
}

impl Reason for ScriptReason {
    ghost use Rattle.m17_client_commands.specs.Reasons.{script_reason_words};

    ghost words = { script_reason_words };

    fn push_to(&self, line: &mut Line) {
        match self {
            ScriptReason::Cut => line.push_text("cut"),
            ScriptReason::Field => line.push_text("field"),
            ScriptReason::Large => line.push_text("large"),
        }
    }
}
