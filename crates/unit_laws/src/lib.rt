//! Laws of the definitions by which the units of an open fronthaul answer:
//!
//! - what one more section or arrival can change, and what it cannot, so that a unit may keep in fixed memory what these definitions tell
//!   of complete lists of arrivals;
//! - what a unit judges is sound: each section names a slot and a symbol of its endpoint, and each fragment and message is received at a
//!   time;
//! - what a unit judges has numbers of the widths of their fields.
//!
//! There are no functions: a law is stated in `specs/` and proved as a lemma in `proofs/`. All rest on this project's profile of
//! O-RAN.WG4.CUS.
#![tactic(auto)]
