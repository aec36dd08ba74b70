//! The memory of one endpoint of a radio unit: what sections claim of the cells of its slots, the blocks that were received for
//! them, which cells were reported, and the accepted uplink sections.
//!
//! A `SlotRing` takes all its memory when it is made, and no other call asks for any. It is a ring of places, each that of
//! one slot at a time; a slot gets its place by `open`, which forgets what was kept of another slot there. Contracts speak
//! of what is looked up for a cell (`specs/Rings.antt`), and never of places: where a slot has none, nothing is known of it.
//!
//! The claims of a cell are one section id and two masks of its twelve resource elements, and tests on them are bit
//! operations. The verdicts are this project's profile; reMask, sectionId, startPrbc, numPrbc and numSymbol are those of
//! O-RAN.WG4.CUS.
#![tactic(auto)]

mod blocks;
mod claims;
mod index;
mod judging;
mod lists;
mod packed;
mod pending;
mod place;
mod ring;
mod rows;
mod scans;
mod starts;
mod symbol_cells;
mod written;

pub use blocks::LentBlocks;
pub use claims::CellClaims;
pub use packed::PackedRun;
pub use ring::SlotRing;
pub use rows::Span;
pub use symbol_cells::{SymbolCells, Use};
