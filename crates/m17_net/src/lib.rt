//! The devices of a real machine: an ear and a mouth on a UDP socket of IPv4 or IPv6, a book in a file, whose writes a
//! thread of its own makes (`m17_disk`), and ports that make them. These may lock the folder of their books, open no file
//! twice, and may be told of a file whose end stops their ears. Over any socket (`Wire`), clock (`Timer`) and file
//! (`BookFile`), it promises what an ear says of each datagram that the socket took, and at which moment, that a mouth
//! sends one datagram with exactly its bytes to the address of its peer, that a book writes each record whole, that
//! each of them fails only where its socket, clock or file did, and that each failure is counted and nothing else is;
//! errors that tell of an interruption or of an earlier datagram are passed over. What the system's socket, clock and
//! file do at a call is the trusted edge: they tell no content. When to hear, what to say and what to write is left to
//! the crates above. Nothing is allocated here after the ports have made a device.
#![tactic(auto)]

mod address;
mod book_file;
mod ear;
mod file_book;
mod late_file;
pub mod laws;
mod mouth;
mod open_files;
mod ports;
mod stop;
mod stopping;
mod taking;
mod timer;
mod trouble;
mod wire;

pub use address::{address_of, peer_at};
pub use book_file::BookFile;
pub use ear::UdpEar;
pub use file_book::FileBook;
pub use late_file::LateFile;
pub use mouth::UdpMouth;
pub use ports::{UdpPorts, sockets};
pub use stop::Stop;
pub use timer::Timer;
pub use wire::Wire;
