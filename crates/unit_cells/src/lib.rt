//! The memory of the cells of a unit at one side: what sections claim of them, the blocks that were received for them, which were
//! reported, and the accepted uplink sections of each slot.
//!
//! [`UnitCells`] holds a ring of slots for each endpoint and takes all memory when it is made; no other call asks for any. A
//! ring has so many places that two slots which are live at one time have two of them, so a slot that is forgotten is one of
//! which nothing is asked again.
//!
//! Contracts speak of what is looked up for a cell (`specs/Cells.antt`), and say of each call how the rings relate to the
//! allocations that were accepted and the data that were on time, over all that was received (`specs/Keeping.antt`): at a clock
//! they answer as those do, for the slots that are live. Calls are made in the order of time, and what is kept at one clock is kept
//! at a later one (`keeps_later` of `proofs/TimeLemmas.antt`).
//!
//! Sections of data are judged by their header (`begin`), and their PRBs follow, one (`fill`) or many packed ones (`fill_run`) at a
//! time, so that no message has to be kept. Windows and fields are those of O-RAN.WG4.CUS; the verdicts are this project's profile.
#![tactic(auto)]

mod cells;
mod rings;
mod sections;

pub use cells::UnitCells;
