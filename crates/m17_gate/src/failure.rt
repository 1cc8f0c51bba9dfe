use crate::RulesRefusal;
use m17_io::Fault;
use m17_print::{Ending, Line, Reason};

/// Why an input is refused: it is no text of rules.
#[derive(Clone, Copy, Debug, PartialEq, Eq)]
pub enum RulesReason {
    /// It has too many bytes.
    Large,
    /// A line does not begin with `allow` or `deny`.
    Act,
    /// Its second part is not `conn`, `lstn`, `talk` or `any`.
    Kind,
    /// Its third part is neither `*` nor letters of modules, each once; or it is letters, and the
    /// rule is about who speaks.
    Modules,
    /// What stands behind is neither a callsign nor what one may begin with and a `*`.
    Pattern,
}

/// Why there are no rules.
#[derive(Clone, Copy, Debug, PartialEq, Eq)]
pub enum RulesFailure {
    /// The input is no text of rules. `place` is the first line that is refused, counted from 0,
    /// or, where the text is too large, the first byte too many.
    Refused { place: u64, reason: RulesReason },
    /// A device failed: the source, or the sink where it was to hand on what it held back.
    Device(Fault),
    /// There was no memory for the text or its rules.
    NoMemory,
}

impl RulesFailure {
    ghost use Rattle.std.specs.Prelude.{◌≡◌, ◌≢◌};
    ghost use Rattle.m17_gate.specs.Endings.{rules_ending};
    ghost use Rattle.m17_gate.specs.Taking.{failure_of};

    /// How a run ends that has no rules, among all the ways that there are.
    pub fn into_ending(self) -> Ending<RulesReason>
        ensures { result ≡ rules_ending self }
    {
        match self {
            RulesFailure::Refused { place, reason } => Ending::Refused { place, reason },
            RulesFailure::Device(Fault::Read) => Ending::ReadFailed,
            RulesFailure::Device(Fault::Write) => Ending::WriteFailed,
            RulesFailure::NoMemory => Ending::NoMemory,
        }
    }

    // The failure that a refusal is, which is not one of its source.
    pub(crate) fn of_refusal(refusal: RulesRefusal) -> RulesFailure
        requires { refusal ≢ RulesRefusal.ReadFault }
        ensures { result ≡ failure_of refusal }
    {
        match refusal {
            RulesRefusal::Large { at } => RulesFailure::Refused {
                place: at,
                reason: RulesReason::Large,
            },
            RulesRefusal::Line { line, reason } => RulesFailure::Refused {
                place: line,
                reason: RulesReason::of_part(reason),
            },
            RulesRefusal::ReadFault => unreachable!(),
            RulesRefusal::NoMemory => RulesFailure::NoMemory,
        }
    }
}

impl RulesReason {
    ghost use Rattle.std.specs.Prelude.{◌≡◌};
    ghost use Rattle.m17_gate.specs.Taking.{reason_of};

    // The reason that a part of a line is refused for.
    fn of_part(part: crate::Reason) -> RulesReason
        ensures { result ≡ reason_of part }
    {
        match part {
            crate::Reason::Act => RulesReason::Act,
            crate::Reason::Kind => RulesReason::Kind,
            crate::Reason::Modules => RulesReason::Modules,
            crate::Reason::Pattern => RulesReason::Pattern,
        }
    }
}

impl Reason for RulesReason {
    ghost use Rattle.m17_gate.specs.Reasons.{rules_reason_words};

    ghost words = { rules_reason_words };

    fn push_to(&self, line: &mut Line) {
        match self {
            RulesReason::Large => line.push_text("large"),
            RulesReason::Act => line.push_text("act"),
            RulesReason::Kind => line.push_text("kind"),
            RulesReason::Modules => line.push_text("modules"),
            RulesReason::Pattern => line.push_text("pattern"),
        }
    }
}
