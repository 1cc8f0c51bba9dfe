//! The codes and places of both formats, for the readers and the writers alike. What the versions of books differ in
//! stands in `version`.

/// What a trace begins with: `M17TRACE`.
pub(crate) const TRACE_MAGIC: [u8; 8] = *b"M17TRACE";

/// How many bytes a magic has.
pub(crate) const MAGIC_BYTES: usize = 8;

/// The most bytes of a trace.
pub(crate) const MOST_TRACE_BYTES: u64 = 67_108_864;

/// The most entries of a trace.
pub(crate) const MOST_ENTRIES: usize = 1_000_000;

/// The kinds of records: a Join, a Leave, a Packet.
pub(crate) const JOIN: u8 = 1;

pub(crate) const LEAVE: u8 = 2;

pub(crate) const PACKET: u8 = 3;

/// The kinds of entries: a datagram, quiet, a fault.
pub(crate) const DATAGRAM: u8 = 1;

pub(crate) const QUIET: u8 = 2;

pub(crate) const FAULT: u8 = 3;

/// The most links there are, and places over all links.
pub(crate) const LINKS: u8 = 4;

pub(crate) const PLACES: u32 = 256;

/// The most bytes of a datagram.
pub(crate) const DATAGRAM_BYTES: u8 = 64;

/// How many bytes a record has: the fields that all have, and each kind.
pub(crate) const HEAD_BYTES: usize = 30;

pub(crate) const JOIN_BYTES: usize = 37;

pub(crate) const LEAVE_BYTES: usize = 31;

pub(crate) const PACKET_BYTES: usize = 97;
