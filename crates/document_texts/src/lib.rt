//! The texts that are made of complete documents: explanations, shared cells, idle endpoints and frames that are sent (this project's
//! profile). Each line ends with a line feed, and its words are parted by one space.
//!
//! [`explain`] writes what became of each frame, message, section and cell, and the reason of every silent cell.
//!
//! [`share`] writes one cell over several radio units: what each of them radiates and counts, and the sum of what their distributed units
//! take in. Each unit is a step further away than the one before it and has each downlink frame over a way of its own; [`unit_document`]
//! makes its document, with longer times on the way and samples of its own antenna. `share` replays the document of one unit after the
//! other with a [`UnitAir`], which writes the radio unit's cells and counters and adds the distributed unit's cells to a mixer. So one
//! unit's document and replay are in memory at a time, and beside them one entry for each planned uplink cell.
//!
//! [`write_idle`] replays a document with [`idle_spans::Spans`] as its air, and writes the text of `idle_text` of what they heard.
//!
//! [`list_sent`] writes a line for each frame that the plan sends to the radio unit, in the order in which they are sent, with the number
//! that a `deliver` line names it by, and with what becomes of it; `end` is at the end.
#![tactic(auto)]

mod combined;
mod copying;
mod explaining;
mod faults;
mod frames;
mod lines;
mod listing;
mod mixes;
mod moving;
mod shared_units;
mod sharing;
mod sizes;
mod tally;
#[cfg(test)]
mod tests;
mod unit_air;
mod unit_documents;
mod units;
mod writing;

pub use combined::put_combined;
pub use explaining::explain;
pub use faults::ShareFault;
pub use lines::{FrameLine, put_frame_line};
pub use listing::list_sent;
pub use mixes::{put_mix_back, put_mix_front};
pub use sharing::share;
pub use unit_air::UnitAir;
pub use unit_documents::unit_document;
pub use units::put_unit;
pub use writing::write_idle;
