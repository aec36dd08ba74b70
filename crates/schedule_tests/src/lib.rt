//! Tests of the distributed unit's schedule and of the radio unit's uplink frames, by the public calls of `du_scheduler` and `uplink_path`,
//! and of `frame_bytes` and `sent_frames` below them. All are proved without these tests.
//!
//! Plans are worked: their frames and times are worked out by hand from the layout tables and the windows. `steps` makes plans and compares
//! what they give. `samples` makes what the tests of the uplink need, and `uplink_steps` calls the unit and what sends its frames, and
//! keeps what the calls require.
#![tactic(auto)]

#[cfg(test)]
mod formats;
#[cfg(test)]
mod frames;
#[cfg(test)]
mod kinds;
#[cfg(test)]
mod lines;
#[cfg(test)]
mod numbers;
#[cfg(test)]
mod order;
#[cfg(test)]
mod orders;
#[cfg(test)]
mod refusals;
#[cfg(test)]
mod runs;
#[cfg(test)]
mod samples;
#[cfg(test)]
mod steps;
#[cfg(test)]
mod uplink_frames;
#[cfg(test)]
mod uplink_refusals;
#[cfg(test)]
mod uplink_steps;
#[cfg(test)]
mod written;
