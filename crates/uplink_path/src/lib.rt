//! The radio unit's uplink frames.
//!
//! [`Uplink`] takes the uplink messages that are due from a radio unit and hands their frames to a link, with the times at which they
//! leave. What it sends is said by the definitions of `uplink_model`.
#![tactic(auto)]

mod pending;
mod rules;
mod sending;
mod uplink;

pub use uplink::Uplink;
