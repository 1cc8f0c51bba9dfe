use m17_values::Gram;

/// What ports were asked for; of each text the bytes, 64 at the most.
#[derive(Clone, Debug, PartialEq, Eq, Drop)]
pub enum Question {
    /// A link: where it is bound, and the moment in milliseconds at which its ear ends, if it does.
    Link { bind: Gram, until: Option<u64> },
    /// A book of this name.
    Book { name: Gram },
}
