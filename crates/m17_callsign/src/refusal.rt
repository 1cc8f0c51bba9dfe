use thiserror::Error;

/// Why a text is no callsign, of a station or a group: the first reason that fits, in this order.
#[derive(Clone, Copy, Debug, PartialEq, Eq, Error)]
pub enum CallRefusal {
    /// The text has no byte.
    #[error("a callsign has at least one letter")]
    Empty,
    /// The text has more than 9 bytes; this is their number.
    #[error("a callsign has at most 9 letters, and this has {0} bytes")]
    Long(usize),
    /// The byte at this place, from 0, is neither a letter of the alphabet nor the `#` of a group, which stands at
    /// place 0: the first such byte.
    #[error("no letter of callsigns at byte {0}")]
    Letter(usize),
    /// The text is a `#` alone.
    #[error("a group has at least one letter after its #")]
    Bare,
    /// The last letter is a space.
    #[error("a callsign does not end in a space")]
    TrailingSpace,
}
