//! Laws: generations of fragments are messages, and each message becomes complete once, also where sequence ids are used again.
//!
//! There are no functions: a law is stated in `specs/` and proved as a lemma in `proofs/`.
#![tactic(auto)]
