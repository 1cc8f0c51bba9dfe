//! The magics and places of control packets, for the reader and the writer alike.

pub const CONN: [u8; 4] = [b'C', b'O', b'N', b'N'];

pub const LSTN: [u8; 4] = [b'L', b'S', b'T', b'N'];

pub const ACKN: [u8; 4] = [b'A', b'C', b'K', b'N'];

pub const NACK: [u8; 4] = [b'N', b'A', b'C', b'K'];

pub const PING: [u8; 4] = [b'P', b'I', b'N', b'G'];

pub const PONG: [u8; 4] = [b'P', b'O', b'N', b'G'];

pub const DISC: [u8; 4] = [b'D', b'I', b'S', b'C'];

/// How many bytes a packet has that is a magic alone.
pub const BARE_BYTES: usize = 4;

/// How many bytes a packet has that is a magic and From.
pub const FROM_BYTES: usize = 10;

/// How many bytes a packet has that is a magic, From and a module: the longest.
pub const MODULE_BYTES: usize = 11;

/// Where From begins.
pub const FROM_AT: usize = BARE_BYTES;

/// Where the module stands.
pub const MODULE_AT: usize = FROM_BYTES;
