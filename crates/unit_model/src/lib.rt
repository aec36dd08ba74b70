//! What both units of an open fronthaul make of the frames that arrive: the verdicts on sections, the claims that
//! commands leave, the blocks that data give, what radiates and what the uplink is to send.
//!
//! The definitions are in `specs/`, in the terms of O-RAN.WG4.CUS and eCPRI, over complete lists of arrivals with the
//! newest first; nothing in them is forgotten. The code has the types that they speak of, and the steps that every unit takes,
//! each exactly its definition.
#![tactic(auto)]

mod allocations;
mod cells;
mod commands;
mod counting;
mod decoded;
mod heading;
mod jobs;
mod listening;
mod meeting;
mod results;
mod samples;
mod slots;
mod spans;
mod symbol_start;
mod uplink;
mod verdicts;

pub use allocations::Allocation;
pub use cells::{Block, Cell, Claim};
pub use commands::{command_class, is_for, is_uplink};
pub use counting::{block_counter, command_counter, data_counter, fragment_counter};
pub use decoded::{ControlSection, UserSection};
pub use ecpri_fragments::MESSAGE_BYTES;
pub use heading::DataHeading;
pub use jobs::{Delivered, UplinkJob};
pub use listening::{Deaf, Listener};
pub use meeting::{Met, meet};
pub use results::DelayResult;
pub use samples::samples_under;
pub use slots::{allocation_of, same_slot};
pub use symbol_start::{SymbolStart, comes_before};
pub use uplink::{SLOT_SECTIONS, is_from, place_of, sends_in};
pub use verdicts::{CommandVerdict, DataVerdict};
