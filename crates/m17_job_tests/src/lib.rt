//! The tests of the jobs of a reflector's threads, the sender, the worker and the receiver (`m17_sender`, `m17_worker`,
//! `m17_receiver`), in a crate of their own so that the proofs of the bodies are not made twice. Each job is run over lanes
//! whose other ends the test has. They show what no clause says: that a job goes through and ends by itself, in which order it
//! gets to things, and that it waits for room, places, notes and events no longer than it has to. They name public items
//! alone, and this crate has no items of its own.
#![tactic(auto)]

#[cfg(test)]
mod bench;
#[cfg(test)]
mod echo_tests;
#[cfg(test)]
mod full_tests;
#[cfg(test)]
mod hint_tests;
#[cfg(test)]
mod offer_tests;
#[cfg(test)]
mod receiver_bench;
#[cfg(test)]
mod receiver_tests;
#[cfg(test)]
mod sender_bench;
#[cfg(test)]
mod sender_tests;
#[cfg(test)]
mod serving_tests;
#[cfg(test)]
mod waiting_tests;
#[cfg(test)]
mod worker_bench;
#[cfg(test)]
mod worker_tests;
