use m17_control::ModuleLetter;

/// What the header of a book says.
#[derive(Clone, Copy, Debug, PartialEq, Eq)]
pub struct Head {
    /// The module whose book it is.
    pub module: ModuleLetter,
    /// The limit on talking under which the module decided, in milliseconds; 0 is no limit.
    pub limit: u64,
}
