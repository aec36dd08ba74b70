//! What the units and the replay tell of a fronthaul, the samples that they take, and the lines of a report.
//!
//! An [`Air`] hears events: cells that were reported, delays that were measured, frames that arrived, and counters. What it heard is
//! said by its ghost members, so code over any air can prove that it told all its events, or a prefix of them and where the air
//! stopped. A [`MemoryAir`] keeps its events. An air over a sink holds the sink and what is owed to it side by side; [`tell`] and
//! [`push_out`] take the two. A [`Link`] takes the frames of a unit with their times.
//!
//! [`Samples`] keep a closure that answers I and Q at every resource element, beside what is known of it. A [`Tone`] gives samples
//! that are known everywhere (this project's profile). With seed e and amplitude A, from 1 to 32,768, the number of an element is
//! `v = e + 1009 * id + 613 * (frame mod 256) + 409 * subframe + 307 * slot + 211 * symbol + 101 * prb + 17 * re`,
//! its I is `(v mod 2A) - A` and its Q `((3v + 7) mod 2A) - A`.
//!
//! A line of a report (this project's profile) is a cell, a measured delay or a counter. It ends with a line feed, its words are
//! parted by one space. Numbers are decimal without leading zeros, but an eAxC id has four and a mask three lower-case hexadecimal
//! digits. A `put_` call writes in place of a line, and the call beside it answers a line of its own. A [`ReportLine`] writes what
//! the lines of a symbol's cells have in common once. Tones and lines take no memory.
#![tactic(auto)]

mod airs;
mod cell_lines;
mod events;
mod links;
mod memory_air;
mod memory_link;
mod places;
mod plain_tone;
mod report_line;
mod samples;
mod symbols;
mod telling;
mod tone_numbers;
mod tone_steps;
mod tone_turns;
mod tones;
mod unit_lines;

pub use airs::{Air, AirFault};
pub use cell_lines::{cell_line, put_cell};
pub use events::{AirCell, Event, Side};
pub use fh_base::Line;
pub use links::{Link, LinkFrame};
pub use memory_air::MemoryAir;
pub use memory_link::MemoryLink;
pub use places::RePlace;
pub use plain_tone::tone;
pub use report_line::ReportLine;
pub use samples::Samples;
pub use telling::{push_out, tell};
pub use tone_steps::ToneSteps;
pub use tones::Tone;
pub use unit_lines::{count_line, delay_line, put_count, put_delay};
