//! What holds of the spans in which an endpoint is silent, and of the plan lines that are proposed for its free slots: a valid plan is
//! valid still where idle lines for untouched slots follow it.
//!
//! There are no functions: a law is stated in `specs/` and proved as a lemma in `proofs/`.
#![tactic(auto)]
