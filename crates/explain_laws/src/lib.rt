//! Laws of explanations of events, replays and documents:
//!
//! - their lines are what the units judge, and what is judged is what is counted;
//! - the reasons of a replay are true: what is kept for them is what the units decoded of all that was received;
//! - no accepted section names a silent element;
//! - where nothing disturbs a document, nothing is missing and nothing is silent.
//!
//! A law is stated in `specs/` and proved as a lemma in `proofs/`; [`judgements_are_counted`] does nothing, and has one as its contract.
#![tactic(auto)]

mod laws;

pub use laws::judgements_are_counted;
