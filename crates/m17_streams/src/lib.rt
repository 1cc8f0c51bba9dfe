//! Devices in memory, for tests and for whoever works on bytes that are there: a source of given bytes and a sink of a
//! fixed room (`BytesOutlet`: an outlet below a buffer). Each tells all of its content, and fails exactly at the calls that
//! it was told to fail at (a sink also where its room does not suffice), so that what a caller does at a failure can be
//! shown at each call in turn. What is read and written is left to the caller.
//!
//! Buffers over devices: a source that reads ahead from any source, so that one call of the system serves many
//! records, and a sink that gathers what is written before it leaves by any outlet. Both tell their content exactly:
//! left is what is buffered and then what is left below, and written is what has left below and then what is held,
//! also after a failure, which loses no byte. When output has to leave is left to whoever reads (`read_tied`).
#![tactic(auto)]

mod bytes_outlet;
mod bytes_sink;
mod bytes_source;
mod waiting_source;

pub use bytes_outlet::BytesOutlet;
pub use bytes_sink::BytesSink;
pub use bytes_source::BytesSource;
pub use waiting_source::WaitingSource;

mod buffered_sink;
mod buffered_source;
mod send_all;

pub use buffered_sink::BufferedSink;
pub use buffered_source::BufferedSource;

/// How many bytes a buffer has room for.
pub const BUFFER_BYTES: usize = 65_536;
