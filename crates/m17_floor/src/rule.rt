/// The rules that a book can break, in the order in which they are tried at a record.
#[derive(Clone, Copy, Debug, PartialEq, Eq)]
pub enum Rule {
    /// The moment of a record isn't below that of the record before it.
    Moment,
    /// A Join is at a place at which nobody is in, and a Leave is of a member that is in.
    Member,
    /// The verdict that was kept with a packet is that of the floor rule, its value included.
    Verdict,
}
