//! What the lines of a plan say, when a plan is valid, and which frames the distributed unit sends for it.
//!
//! The definitions are in `specs/`, in the terms of O-RAN.WG4.CUS; the plan, its tests and the order of what is sent are this
//! project's profile. The functions here compute one value of them each; what goes over complete plans is in the crates above.
//! Nothing allocates.
#![tactic(auto)]

mod dense;
mod departures;
mod lines;
mod refusals;
mod sizes;
mod streams;

pub use dense::{Dense, Sending, dense_in, down_distance, is_near, up_distance};
pub use departures::Departures;
pub use ecpri_fragments::MESSAGE_BYTES;
pub use lines::{PlannedLine, is_out_of_range, line_allocation, planned_line};
pub use refusals::PlanWhy;
pub use sizes::{MessageSize, frame_count, section_size};
pub use streams::Stream;
