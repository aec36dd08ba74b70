//! Laws on the cells of units that share a cell.
//!
//! Which cells a unit reports is told by what is claimed alone, so units of one plan report the same places in the same order; and what the
//! combined cells are of units that do so.
//!
//! There are no functions: each law is stated in `specs/` and proved as a lemma in `proofs/`.
#![tactic(auto)]
