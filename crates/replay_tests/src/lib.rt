//! Tests of the replay of a document: what an air hears (`events`), sinks that fail (`sinks`), and some hundred messages of one endpoint
//! (`many`). Documents and their reports, summaries and captures are in the table of `run_vectors`.
//!
//! Beside them are tests of what is between both units, by the public calls of `frame_ways`, `unit_meters`, `unit_moments` and
//! `delay_exchange`. All these crates and `fronthaul_replay` are proved without the tests.
#![tactic(auto)]

#[cfg(test)]
mod built;
#[cfg(test)]
mod deliveries;
#[cfg(test)]
mod events;
#[cfg(test)]
mod flights;
#[cfg(test)]
mod listed;
#[cfg(test)]
mod many;
#[cfg(test)]
mod meters;
#[cfg(test)]
mod moments;
#[cfg(test)]
mod pooled;
#[cfg(test)]
mod queues;
#[cfg(test)]
mod sinks;
#[cfg(test)]
mod ways;
