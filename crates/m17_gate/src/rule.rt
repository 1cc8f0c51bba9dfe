use crate::Letters;
use m17_control::Modules;
use m17_values::Address;

/// What becomes of those that a rule fits.
#[derive(Clone, Copy, Debug, PartialEq, Eq)]
pub enum Act {
    /// They are let through.
    Allow,
    /// They are not heard.
    Deny,
}

/// What a rule is about.
#[derive(Clone, Copy, Debug, PartialEq, Eq)]
pub enum Kind {
    /// Who connects to a module, to speak and to listen.
    Conn,
    /// Who connects to a module to listen only.
    Lstn,
    /// Who speaks.
    Talk,
    /// All of these.
    Any,
}

/// Whose address a rule fits.
#[derive(Clone, Copy, Debug)]
pub enum Pattern {
    /// Every address, also one without a callsign.
    Every,
    /// The address of one callsign.
    One(Address),
    /// The addresses whose callsigns begin with these letters.
    Begin(Letters),
}

/// A rule: what becomes of whom, and where.
#[derive(Clone, Copy, Debug)]
pub struct Rule {
    /// What becomes of those that it fits.
    pub act: Act,
    /// What it is about.
    pub kind: Kind,
    /// The modules that it is about; none for every module. Only such a rule is about who speaks.
    pub modules: Option<Modules>,
    /// Whose address it fits.
    pub pattern: Pattern,
}
