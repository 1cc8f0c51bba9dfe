/// One membership: a place of the reflector's table, and which of the memberships at that place it is.
#[derive(Clone, Copy, Debug, PartialEq, Eq)]
pub struct Member {
    /// The place, from 0.
    pub place: u32,
    /// How many memberships there were at the place before this one.
    pub generation: u64,
}
