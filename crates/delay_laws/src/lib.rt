//! Laws of one-way delay measurement by eCPRI messages between the two units of an open fronthaul (eCPRI 2.0, section 3.2.4.6).
//!
//! There are no functions: a law is stated in `specs/` and proved as a lemma in `proofs/`.
#![tactic(auto)]
