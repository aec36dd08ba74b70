//! Tests of the distributed unit's intake by its public calls: worked frames, with moments and counters worked out by hand.
//!
//! What they and a bench do with an intake is public: [`made`] and [`made_of`] make one for the lines of a plan, [`step`] delivers a frame,
//! and [`close`] and [`close_before`] report cells where the intake's own `clock` and `due` say that it may be done.
#![tactic(auto)]

#[cfg(test)]
mod blocks;
#[cfg(test)]
mod closes;
#[cfg(test)]
mod edges;
#[cfg(test)]
mod many;
#[cfg(test)]
mod offsets;
#[cfg(test)]
mod pieces;
#[cfg(test)]
mod plans;
mod sample_plans;
#[cfg(test)]
mod samples;
mod steps;
#[cfg(test)]
mod tables;
#[cfg(test)]
mod windows;

pub use sample_plans::{config, endpoint, line, one, two};
pub use steps::{close, close_before, made, made_of, step};
