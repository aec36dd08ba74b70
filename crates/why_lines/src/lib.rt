//! The lines at the end of an explanation: why elements of a plan are silent ([`tell_silent`]), which blocks were taken that no cell shows
//! ([`tell_unused`]), and the sums of reasons.
//!
//! [`ReasonSums`] is given each line of an explanation. In the end it tells, for each unit and endpoint, how many cells are shown, how many
//! are missing and how many PRBs are silent for each reason. The lines of missing cells themselves are told by `explain_records`.
#![tactic(auto)]

mod blocks;
mod items;
mod line_sums;
mod masks;
mod puts;
mod starts;
mod sums;
mod telling;
#[cfg(test)]
mod tests;
mod unit_sums;
mod words;

pub use puts::tell_silent;
pub use sums::ReasonSums;
pub use telling::tell_unused;
