//! No picture refuses the explanation of a document: a text of the lines that `explain` writes is drawable, the explanation is so of any
//! plan and events whose times, places and numbers are those of a replay, and the events of a replay are such.
//!
//! A law is stated in `specs/` and proved as a lemma in `proofs/`; [`written_are_drawn`] does nothing, and has one as its contract.
#![tactic(auto)]

mod drawn_documents;

pub use drawn_documents::written_are_drawn;
