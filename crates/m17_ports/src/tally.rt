/// How many datagrams of each kind were said to a peer, by the first four bytes of each. A number that has come to
/// 2^64 - 1 stays there.
#[derive(Clone, Copy, Debug, PartialEq, Eq)]
pub struct Tally {
    /// Those that begin with `ACKN`.
    pub ackn: u64,
    /// Those that begin with `NACK`.
    pub nack: u64,
    /// Those that begin with `PING`.
    pub ping: u64,
    /// Those that begin with `PONG`.
    pub pong: u64,
    /// Those that begin with `DISC`, of 4 and of 10 bytes.
    pub disc: u64,
    /// Those that begin with `M17 `: stream packets.
    pub frame: u64,
}
