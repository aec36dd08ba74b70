//! The events of a replay, in the order of time, by definition (`specs/Events.antt`), and their laws at both units.
//!
//! No cell is reported twice, what a cell shows was received in time and was commanded in time or planned, its message's fragments were
//! all received in its window, the counters add up, a message, fragment or section that is refused changes nothing but counters, and the
//! delays that are told are the results of the frames that are received. By others a loop that lets time pass reaches the events
//! (`specs/Passing.antt`). A law is stated in `specs/` and proved as a lemma in `proofs/`; [`all_is_told_by_the_end`] does nothing,
//! and has one as its contract.
#![tactic(auto)]

mod event_laws;

pub use event_laws::all_is_told_by_the_end;
