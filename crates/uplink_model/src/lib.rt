//! The U-plane messages and frames that the radio unit sends for accepted uplink sections.
//!
//! The definitions are in `specs/`, in the terms of O-RAN.WG4.CUS and eCPRI; how messages are cut, numbered and timed is this
//! project's profile. There are no functions: a law is stated in `specs/` and proved as a lemma in `proofs/`.
#![tactic(auto)]
