//! Tests of bytes, lists, tables, messages and the bytes of sent frames, by the public calls of `bfp_codec`, `fh_base`, `eaxc_map`,
//! `fault_counters`, `window_config`, `uplane_sections`, `uplane_messages`, `delay_measure` and `frame_bytes`, which are proved without
//! them.
#![tactic(auto)]

#[cfg(test)]
mod counters;
#[cfg(test)]
mod data;
#[cfg(test)]
mod delays;
#[cfg(test)]
mod endpoints;
#[cfg(test)]
mod fields;
#[cfg(test)]
mod lines;
#[cfg(test)]
mod lists;
#[cfg(test)]
mod owed;
#[cfg(test)]
mod sent;
#[cfg(test)]
mod walks;
#[cfg(test)]
mod windows;
