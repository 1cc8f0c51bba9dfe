use crate::{BridgeOrder, ServeOrder, TalkOrder};
use m17_callsign::CallAddress;
use m17_control::Modules;

/// What the words ask for.
#[derive(Debug, PartialEq, Eq, Drop)]
pub enum Command {
    /// `judge`: verdict lines for records of packets.
    Judge,
    /// `show`: what the bytes of hex lines are.
    Show,
    /// `replay`: what a reflector does with a trace, line by line, or its summary. `call` is the reflector's callsign,
    /// `parrots` are among the `modules`, there are 1 to 256 `places`, and the `limit` on talking is in milliseconds. It
    /// runs in one thread, or over those of the reflector where there are to be `threads`.
    Replay {
        call: CallAddress,
        modules: Modules,
        parrots: Modules,
        places: u32,
        summary: bool,
        limit: u64,
        threads: bool,
    },
    /// `make`: the trace of an evening, drawn from a seed, with 0 to 100,000 entries.
    Make {
        seed: u64,
        count: u32,
    },
    /// `check`: whether a book is legal.
    Check,
    /// `migrate`: a book of version 1 as one of version 2.
    Migrate,
    /// `talk`: a client of a reflector, by a script.
    Talk(TalkOrder),
    /// `serve`: the reflector.
    Serve(ServeOrder),
    /// `bridge`: a client of two reflectors, which says in each what is said in the other.
    Bridge(BridgeOrder),
}

/// Why the words give no command.
#[derive(Clone, Copy, Debug, PartialEq, Eq)]
pub enum WordsRefusal {
    /// They name none, or not all of its values, or more, or values out of bounds.
    Refused,
    /// There was no memory for reading them.
    NoMemory,
}
