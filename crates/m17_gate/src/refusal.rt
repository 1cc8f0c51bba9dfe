/// Why a rule text is refused.
#[derive(Clone, Copy, Debug, PartialEq, Eq)]
pub enum RulesRefusal {
    /// It has more bytes than a rule text may have: the first one too many stands at this place,
    /// 65,536.
    Large { at: u64 },
    /// The first line that is no rule, counted from 0, and the first of its parts that is refused.
    Line { line: u64, reason: Reason },
    /// The source failed.
    ReadFault,
    /// There was no memory for the text or its rules.
    NoMemory,
}

/// Which part of a line is refused: the first one.
#[derive(Clone, Copy, Debug, PartialEq, Eq)]
pub enum Reason {
    /// It is not `allow` or `deny`.
    Act,
    /// It is not `conn`, `lstn`, `talk` or `any`.
    Kind,
    /// It is neither `*` nor letters of modules, each once; or it is letters, and the rule is
    /// about who speaks.
    Modules,
    /// It is neither a callsign nor what one may begin with and a `*`.
    Pattern,
}
