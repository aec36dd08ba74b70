//! Tests of the radio unit in fixed memory and of what it is made of, by the public calls of `ru_buffers`, `unit_model`, `slot_rings`,
//! `unit_memory` and `unit_symbols`, which are proved without them.
//!
//! `samples` and `memory_samples` make what the tests need. `steps` calls the unit, `receiving` takes fragments, and both keep what the
//! calls require.
#![tactic(auto)]

#[cfg(test)]
mod arrivals;
#[cfg(test)]
mod blocks;
#[cfg(test)]
mod calls;
#[cfg(test)]
mod cuts;
#[cfg(test)]
mod extended;
#[cfg(test)]
mod jobs;
#[cfg(test)]
mod memory_samples;
#[cfg(test)]
mod orders;
#[cfg(test)]
mod parts;
#[cfg(test)]
mod plain;
#[cfg(test)]
mod receiving;
#[cfg(test)]
mod rings;
#[cfg(test)]
mod samples;
#[cfg(test)]
mod slots;
#[cfg(test)]
mod steps;
#[cfg(test)]
mod symbols;
