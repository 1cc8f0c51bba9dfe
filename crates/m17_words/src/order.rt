use m17_callsign::CallAddress;
use m17_control::{ModuleLetter, Modules};
use m17_values::Peer;

/// What `talk` is to do, as its words say it.
#[derive(Debug, PartialEq, Eq, Drop)]
pub struct TalkOrder {
    /// The client's callsign.
    pub call: CallAddress,
    /// The module that it asks for.
    pub letter: ModuleLetter,
    /// Whether it only listens.
    pub listen: bool,
    /// Where its link is bound: any text, which the ports understand.
    pub bind: String,
    /// The reflector.
    pub to: Peer,
    /// For how many milliseconds it stays after its last packet, 86,400,000 at the most.
    pub stay: u64,
    /// The name of its book, where it keeps one: any text, which the ports understand.
    pub book: Option<String>,
}

/// What `bridge` is to do, as its words say it.
#[derive(Debug, PartialEq, Eq, Drop)]
pub struct BridgeOrder {
    /// The callsign of its client on both sides.
    pub call: CallAddress,
    /// Where its near link is bound: any text, which the ports understand.
    pub near: String,
    /// The reflector on the near side.
    pub near_peer: Peer,
    /// The module there.
    pub near_letter: ModuleLetter,
    /// Where its far link is bound: any text, which the ports understand.
    pub far: String,
    /// The reflector on the far side.
    pub far_peer: Peer,
    /// The module there.
    pub far_letter: ModuleLetter,
    /// For how many seconds it runs, 1 to 1,000,000; until it is stopped where none are named.
    pub seconds: Option<u64>,
    /// The file whose end stops it, where it has one: any text, which the ports understand.
    pub stop: Option<String>,
}

/// What `serve` is to do, as its words say it.
#[derive(Debug, PartialEq, Eq, Drop)]
pub struct ServeOrder {
    /// The reflector's callsign.
    pub call: CallAddress,
    /// The modules that it serves.
    pub modules: Modules,
    /// Those among them that are parrots.
    pub parrots: Modules,
    /// How many places there are for all links together, 1 to 256.
    pub places: u32,
    /// For how many seconds it serves, 1 to 1,000,000; until it is stopped where none are named.
    pub seconds: Option<u64>,
    /// The folder of its traces and books, where it keeps them: any text, which the ports understand.
    pub book: Option<String>,
    /// Where its links are bound, 1 to 4: any texts, which the ports understand.
    pub binds: Vec<String>,
    /// The limit on talking, in milliseconds, 86,400,000 at the most. 0 means none.
    pub limit: u64,
    /// Whether the input has rules of callsigns, by which it serves.
    pub rules: bool,
    /// The name of its board, where it keeps one: any text, which the ports understand.
    pub board: Option<String>,
    /// Whether a stream packet that comes with a CRC of 0000 has it filled in before it is heard.
    pub fill: bool,
    /// Whether each link has a guard, which doesn't hear an echo.
    pub guard: bool,
    /// How many frames in any second one peer is sent at the most, 100,000 at the most. 0 means that there is no such bound.
    pub pace: u32,
    /// The file whose end stops it, where it has one: any text, which the ports understand.
    pub stop: Option<String>,
}
