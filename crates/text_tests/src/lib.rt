//! Tests of documents, airs, pictures and calculators, by the public calls of `fh_document`, `air_source`, `report_airs`, `pictures`,
//! `shared_cell`, `idle_spans` and `window_plan`, which are proved without them. What documents are refused for is in the table of
//! `run_vectors`.
//!
//! `built` and `made` make what the tests need, and `following` adds cells up and keeps what the calls require. `telling` has code over any
//! air and any samples, and `line_air` an air of its own form, both with the contracts that callers of such code need.
#![tactic(auto)]

#[cfg(test)]
mod air_lines;
#[cfg(test)]
mod blocks;
#[cfg(test)]
mod built;
#[cfg(test)]
mod captures;
#[cfg(test)]
mod cells;
#[cfg(test)]
mod draw_texts;
#[cfg(test)]
mod edges;
#[cfg(test)]
mod events;
#[cfg(test)]
mod faults;
#[cfg(test)]
mod following;
#[cfg(test)]
mod generated;
#[cfg(test)]
mod line_air;
#[cfg(test)]
mod lines;
#[cfg(test)]
mod made;
#[cfg(test)]
mod neighbour_texts;
#[cfg(test)]
mod plans;
#[cfg(test)]
mod refused;
#[cfg(test)]
mod settings;
#[cfg(test)]
mod sinks;
#[cfg(test)]
mod spans;
#[cfg(test)]
mod sums;
#[cfg(test)]
mod telling;
#[cfg(test)]
mod texts;
#[cfg(test)]
mod tones;
#[cfg(test)]
mod worked_pictures;
