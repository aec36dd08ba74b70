//! The windows of an open fronthaul: when a message is on time, whether a delay profile can work at all, and how many slots a
//! unit has to hold. Beside them are the types of a configuration and of the lines of a plan.
//!
//! Delay management follows O-RAN.WG4.CUS. Windows are given in whole nanoseconds and compared in ticks of 1/1536 ns, as symbols
//! start between nanoseconds. Nothing allocates.
#![tactic(auto)]

mod arrivals;
mod config;
mod delays;
mod distances;
mod endpoints;
mod plan;
mod relations;
mod rings;
mod verdicts;
mod windows;

pub use arrivals::{class, class_up};
pub use config::{Config, LEAST_FRAGMENT, MESSAGE_SECTIONS, MOST_FRAGMENT};
pub use delays::{Delays, MOST_DELAY, Range};
pub use endpoints::{EndpointConfig, EndpointList, ListFull};
pub use plan::{LAST_FRAME, PLAN_LINES, PlanKind, PlanLine};
pub use relations::{Failing, Relation, check};
pub use rings::{Reach, du_reach, is_live, ring_slots, ru_reach};
pub use verdicts::Class;
pub use windows::{command_window, cp_dl, data_window};
