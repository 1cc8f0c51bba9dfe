/// Which of a command's two devices failed: the source, at a read, or the sink, at a write or where it was to hand on
/// what it held back.
#[derive(Clone, Copy, Debug, PartialEq, Eq)]
pub enum Fault {
    /// The source failed.
    Read,
    /// The sink failed.
    Write,
}
