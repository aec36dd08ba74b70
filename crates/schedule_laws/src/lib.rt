//! Laws of a plan, as it is tested and as it is sent: where the windows pass the check and every frame is received within T12, each
//! planned resource element is claimed and radiates as the plan says, whatever is repeated, reordered or delayed.
//!
//! There are no functions: a law is stated in `specs/` and proved as a lemma in `proofs/`. All rest on this project's profile of
//! O-RAN.WG4.CUS.
#![tactic(auto)]
