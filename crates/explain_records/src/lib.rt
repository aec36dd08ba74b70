//! All that waits in memory of what both units heard, until the reasons of a replay are told ([`HeardRecords`]), why a cell is missing or
//! an element silent by it ([`missing_reason`]), and the lines at the end of an explanation that say why cells are missing
//! ([`tell_missing`]).
//!
//! [`SymbolRecords`] takes records in the order in which they are made. [`SymbolRecords::order`] sorts them once by their keys, and
//! [`OrderedRecords::of_symbol`] then lends the records of one key as a slice, in the order in which they were appended.
//!
//! [`FragmentRecords`] take the fragments of data that were received at a unit, as far as reasons need them: which messages were received
//! under a used sequence id, and which never became complete.
#![tactic(auto)]

mod beginnings;
mod commands;
mod fragment_records;
mod generations;
mod given;
mod headers;
mod heard_records;
mod keys;
mod kinds;
mod missing;
mod of_judged;
mod ordered;
mod reasons;
mod records;
mod same;
mod sections;
mod store;
#[cfg(test)]
mod tests;
mod told;

pub use commands::{Asked, accepted_command, command_reason};
pub use fragment_records::FragmentRecords;
pub use given::giver_of;
pub use heard_records::HeardRecords;
pub use keys::Keyed;
pub use kinds::in_slot;
pub use missing::{is_next, tell_missing};
pub use ordered::OrderedKept;
pub use reasons::{AtSymbol, missing_reason};
pub use records::{OrderedRecords, SymbolRecords};
pub use same::{same_reason, word_place};
pub use store::KeptRecords;
