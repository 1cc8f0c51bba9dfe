use m17_floor::Rule;

/// What a legal book holds.
#[derive(Clone, Copy, Debug, PartialEq, Eq)]
pub struct Report {
    /// How many records it has.
    pub records: u64,
    /// How many packets opened the floor, and so how many streams there were.
    pub streams: u64,
    /// How many packets were admitted.
    pub admitted: u64,
}

/// Why a book isn't legal.
#[derive(Clone, Copy, Debug, PartialEq, Eq)]
pub struct Breach {
    /// The number of the first record that breaks a rule, from 0.
    pub position: u64,
    /// The first rule that it breaks, in the order of `Rule`.
    pub rule: Rule,
}
