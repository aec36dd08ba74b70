//! The counters of a unit: one number for each verdict on a frame, a message, a fragment, a section or
//! a cell, and one for each answer of the delay measurement.
#![tactic(auto)]

mod kinds;
mod values;

pub use kinds::Counter;
pub use values::Counters;
