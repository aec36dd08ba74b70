//! Documents that were worked out by hand: what is received for each, and what a unit's meter makes of it.
//!
//! There are no functions: what was worked out is stated in `specs/` and proved by the lemmas of `proofs/`.
#![tactic(auto)]
