//! Laws of what a plan sends, of both directions:
//!
//! - the bytes of the frames that a plan sends, and what radiates of them: the laws of a sent plan, said of the very bytes;
//! - the uplink, where the windows pass the check and every frame of both ways is received within its bounds: the radio unit sends what the
//!   plan says, its messages and frames as time passes, tick by tick, and each planned uplink element is taken in once.
//!
//! There are no functions: a law is stated in `specs/` and proved as a lemma in `proofs/`. All rest on this project's profile of
//! O-RAN.WG4.CUS.
#![tactic(auto)]
