//! Explanations of complete documents, some with their reasons, worked out by hand: the events that a document gives, and each line that is
//! written of them.
//!
//! There are no functions: that the definitions compute each text is stated in `specs/` and proved as a lemma in `proofs/`.
#![tactic(auto)]
