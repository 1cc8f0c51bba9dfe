use m17_callsign::CallAddress;
use m17_control::Modules;

/// How a reflector is run.
#[derive(Clone, Copy, Debug, PartialEq, Eq)]
pub struct Plan {
    /// The reflector's own address.
    pub name: CallAddress,
    /// The modules that are served.
    pub modules: Modules,
    /// Those among them that are parrots.
    pub parrots: Modules,
    /// How many places there are for all links together, 1 to 256.
    pub places: u32,
    /// Whether each wait goes on until there is room, so that nothing is missed. With one link only. Nobody, the ear
    /// neither, may wait then for what a packet or a Tick brings about: these lie until half an inbox is full of them, or
    /// another event comes. It is for a reflector with threads: nothing waits in one thread, and `replay_plain` does not
    /// read it.
    pub patient: bool,
    /// Of how many entries of a link, from the first, the verdicts are kept. It is for a reflector with threads:
    /// `replay_plain` answers the verdicts of all entries, and does not read it.
    pub entries: u32,
    /// How many milliseconds after its opening a stream loses its floor. 0 means that there is no limit.
    pub limit: u64,
}
