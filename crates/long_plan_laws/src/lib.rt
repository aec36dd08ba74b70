//! Plans of as many messages as one likes, up to one in each frame of the first 1,000 s: they are valid, so laws over valid plans
//! speak of plans whose sequence ids are used again and again.
//!
//! There are no functions: a law is stated in `specs/` and proved as a lemma in `proofs/`.
#![tactic(auto)]
