//! Units that keep complete lists: a plain program, slow and obvious, for what each unit of an open fronthaul makes of the frames
//! that arrive.
//!
//! Its contract is the definitions of `unit_model`, and its memory grows with what was received. The units that work in fixed memory have
//! the same definitions as their contracts, and are compared with it.
#![tactic(auto)]

mod blocks;
mod claims;
mod commands;
mod decoding;
mod gathering;
mod moments;
mod plain;
mod radiating;
mod reading;
mod report;
mod running;
mod slots;
mod starts;
mod taking;
mod uplink;

pub use report::{Report, TimedFrame};
pub use running::{plain_du, plain_ru};
