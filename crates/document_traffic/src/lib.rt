//! What lands at the units in a document's replay, and what holds of it.
//!
//! At the radio unit land the copies of all that the document's plan sends. At the distributed unit land those of what the radio unit sends
//! for the uplink sections that it accepted. Each copy lands at its time, and after them the injected frames (`specs/Landing.antt`); with
//! the frames of delay measurement it is `specs/Measured.antt` (eCPRI 2.0, section 3.2.4.6).
//!
//! Laws say of a document what `uplink_laws`, `replay_laws` and [`delay_laws`] say of events: what radiates and is taken in, which delays
//! are told, and in which documents one reads in the text that nothing disturbs their schedule.
//!
//! A law is stated in `specs/` and proved as a lemma in `proofs/`. The functions here do nothing: the contract of each is a law that pages
//! promise.
#![tactic(auto)]

mod measured_traffic;
mod plain_documents;

ghost use Rattle.document_traffic.specs.Laws.{PlannedScheduleRadiatesOnce, PlannedUplinkIsTakenInOnce};

pub use measured_traffic::{
    delays_are_told, documents_are_over, landings_are_replayed, measurement_rests,
};
pub use plain_documents::{generated_are_undisturbed, plain_are_undisturbed};

/// Where the windows pass the check, nothing is injected and each frame that is sent to the radio unit has a copy, each within T12: each
/// scheduled downlink element radiates once, with its source's samples as compression leaves them, and each generation at the radio unit
/// holds fragments of one message only, and every copy of them that was received.
pub fn the_schedule_radiates_once()
    ensures { PlannedScheduleRadiatesOnce }
{}

/// Where besides each frame that the radio unit sends has a copy, each within T34: each planned uplink element is taken in once, with the
/// antenna's samples as compression leaves them, and each generation at the distributed unit holds fragments of one message only, and every
/// copy of them that was received.
pub fn the_uplink_is_taken_in_once()
    ensures { PlannedUplinkIsTakenInOnce }
{}
