//! The tests of values, fields, packets, peers' texts, tapes and samples (`m17_values` to `m17_samples`), of books and traces
//! (`m17_book`), of rules of callsigns (`m17_gate`) and of what stands before ears and behind mouths (`m17_decorators`), in a
//! crate of their own so that the proofs of the bodies are not made twice. They show what no clause says: bytes and texts that
//! were taken from the formats and not from the program; that a reader gives the same in whatever pieces bytes come; that a
//! source that fails is told at each read; and which rule, CRC, echo or frame that is over decides. What is said of whole
//! traces and books, of each of their parts, and of each of their bytes changed, is in `conformance/`. They name public items
//! alone, and this crate has no items of its own.
#![tactic(auto)]

#[cfg(test)]
mod bench;
#[cfg(test)]
mod book_check_tests;
#[cfg(test)]
mod book_pieces_tests;
#[cfg(test)]
mod book_tests;
#[cfg(test)]
mod callsign_tests;
#[cfg(test)]
mod control_tests;
#[cfg(test)]
mod crc_tests;
#[cfg(test)]
mod fields_tests;
#[cfg(test)]
mod fill_tests;
#[cfg(test)]
mod gate_taking_tests;
#[cfg(test)]
mod gate_tests;
#[cfg(test)]
mod guard_tests;
#[cfg(test)]
mod lsd_tests;
#[cfg(test)]
mod pace_tests;
#[cfg(test)]
mod peer_tests;
#[cfg(test)]
mod samples_tests;
#[cfg(test)]
mod stream_tests;
#[cfg(test)]
mod tape_tests;
#[cfg(test)]
mod values_tests;
