//! What proofs need of lists again and again, and the kit's library does not say: what stands at which place, what a
//! list contains, how long it is, two lists side by side, ranges of numbers, what is taken and dropped, and tests.
//! There is no code and no definition of its own: a crate that stands on this one cites its lemmas in proofs
//! (`proofs/`, a module for each theme), each of which stands here alone. A lemma on a type of this repository stands
//! with that type, and not here.
#![tactic(auto)]
