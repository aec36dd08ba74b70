//! The symbols of a unit: which is due next, the report of its cells, and the uplink messages that it has to send.
//!
//! A [`SymbolTest`] says what is looked for, and, before any symbol is looked at, of which endpoints and slots there is none;
//! [`first_symbol`] goes over the rest once. [`first_left`] finds the next symbol of which a cell is in use and was not reported,
//! and [`report`] tells its cells to any air. [`next_job`] gives the uplink messages in their order, each once, as a [`JobCursor`]
//! says how far they were given. Contracts speak of what the rings answer to look-ups, and of the events that an air heard.
#![tactic(auto)]

mod cursor;
mod due_jobs;
mod due_symbols;
mod finding;
mod giving;
mod left;
mod places;
mod reporting;
mod sending;
mod symbol_test;

pub use cursor::{JobCursor, NextJob};
pub use due_symbols::first_left;
pub use finding::first_symbol;
pub use giving::next_job;
pub use places::SlotPlace;
pub use reporting::report;
pub use symbol_test::SymbolTest;
