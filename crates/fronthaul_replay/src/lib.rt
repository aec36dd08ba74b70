//! The replay of a document: time passes, frames go out and are received at both units, and what the units make of them is told to an
//! air, or written as a report, a summary or a capture.
//!
//! The events are defined over complete lists of arrivals (`replay_laws`); [`replay`] lets the radio unit of `ru_buffers` and the
//! intake of `du_intake` reach them moment by moment (`unit_moments`), and keeps no list of what arrived. What a document has to do with
//! the ways, the queues and the meters is said here alone, by one invariant of the loop over moments (`AtMoment`).
//! [`replay_listening`] does the same, told to what also hears the judgements of the units (`ListeningAir` of `unit_moments`).
//! [`report_document`], [`count_document`], [`summarize_document`] and [`capture_document`] make the units, and an air writes as the
//! events occur. So the memory is that of the units, of the frames on their way and of the document, whatever the units make of the frames.
#![tactic(auto)]

mod answers;
mod capture;
mod coming;
mod counting;
mod downlink;
mod intake;
mod measuring;
mod moments;
mod planning;
mod radio;
mod replaying;
mod replays;
mod report;
mod summary;
mod times;

pub use capture::capture_document;
pub use planning::check_plan;
pub use replaying::{intake_of, replay_listening_to, replay_to};
pub use replays::{ReplayFault, replay, replay_listening};
pub use report::{TextFault, count_document, report_document};
pub use report_airs::TextAir;
pub use summary::summarize_document;
