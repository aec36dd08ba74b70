//! An air that explains: it writes what became of each frame, message, section and cell, and why cells are missing or silent.
#![tactic(auto)]

mod air;
mod cells;
mod closing;
mod first;
mod kept;
mod last;
mod notes;
mod out;
mod plan;
mod runs;
mod windows;

pub use air::ExplainAir;
pub use kept::Kept;
pub use plan::PlanLines;
