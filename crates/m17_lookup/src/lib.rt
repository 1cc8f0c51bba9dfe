//! Looking back through a list by position. What a link has come to is stated by the last entry that passes a test
//! (`specs/Lookup.antt`), and proved with the same few facts (`proofs/LastBelow.antt`): what `last_below` finds, and that
//! it finds the same where the tests agree. There is no code: a crate that stands on
//! this one cites its definition in contracts, and its lemmas in proofs. What the tests are is left to those crates.
#![tactic(auto)]
