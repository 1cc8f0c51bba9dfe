//! The tests of m17_client and of the words of all commands, in a crate of their own so that the proofs of their bodies are
//! not made twice. They show what the clauses leave open: the client's table by rows that were worked out from the rules,
//! with the bytes that are said; runs of a client over devices that fail where they are told to, and that what is due is
//! said before more is heard; and of words, the values that they stand for. The command `talk` is tested in m17_app.
//! It has no code beside its tests.
//!
//! Of bridges they show what the clauses leave open: steps of a bridge by rows that were worked out
//! from the rule, with the bytes that are said on each side, and that what is due is said before more is heard. Runs over
//! devices that fail are in m17_app. It has no code beside its tests.
#![tactic(auto)]

#[cfg(test)]
mod bench;
#[cfg(test)]
mod bridge_tests_bench;
#[cfg(test)]
mod bridge_tests_while_heard_tests;
#[cfg(test)]
mod step_tests;
#[cfg(test)]
mod table_tests;
#[cfg(test)]
mod talking_tests;
#[cfg(test)]
mod while_heard_tests;
#[cfg(test)]
mod words_tests;
