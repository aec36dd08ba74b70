//! A generated document is read as it was written, and its plan is valid, whatever its seed and its number of slots.
//!
//! A law is stated in `specs/`. It is proved as a lemma in `proofs/`, or is the contract of a function here, which does nothing.
#![tactic(auto)]

mod documents;

pub use documents::{generated_are_read, generated_are_valid};
