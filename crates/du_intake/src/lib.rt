//! The distributed unit's intake in fixed memory.
//!
//! [`Intake`] takes all its memory when it is made. Frames are delivered at the times at which they arrive; what they bring for the
//! uplink cells of a plan is kept until Ta4's maximum after the start of the cells' symbol. The contracts of its calls say which
//! histories it stands for (`specs/Calls.antt`), by the definitions of `unit_model` over all that was ever received.
#![tactic(auto)]

mod claims;
mod closing;
mod lines;
mod plan;
mod symbols;
mod unit;

pub use unit::Intake;
pub use unit_model::Delivered;
