use m17_control::{Direct, Event, ModuleLetter};

/// Something that an entry of a link becomes.
#[derive(Clone, Copy, Debug, PartialEq, Eq)]
pub enum Dispatch {
    /// An event of the module with this letter.
    ToModule { module: ModuleLetter, event: Event },
    /// A reply that goes to a peer past all modules.
    ToDoor(Direct),
}
