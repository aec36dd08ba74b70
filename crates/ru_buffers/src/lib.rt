//! The radio unit of an open fronthaul in fixed memory.
//!
//! [`Ru`] takes all its memory when it is made. Frames are delivered at its clock; as the clock goes on, each downlink cell that is in use
//! is reported once, at the start of its symbol, and each uplink message that accepted commands ask for is given once. The contracts of its
//! calls say which histories it stands for (`specs/Units.antt`, `specs/Calls.antt`), by the definitions of `unit_model` over all that was
//! ever received: forgetting what can no longer be named changes no answer.
//!
//! That its memory stands for a history after a command, after data, after a report of cells, after a message was given, and as its clock
//! goes on, is stated in `specs/` and proved by lemmas in `proofs/`. All rest on this project's profile of O-RAN.WG4.CUS.
#![tactic(auto)]

mod finding;
mod messages;
mod reporting;
mod unit;

pub use unit::Ru;
pub use unit_model::{Delivered, UplinkJob};
