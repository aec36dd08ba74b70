//! A capture file and the classic file of its packets give the same frames: a law of capture files.
//!
//! The function here does nothing: its contract is its law.
#![tactic(auto)]

mod laws;

pub use laws::classic_gives_the_same;
