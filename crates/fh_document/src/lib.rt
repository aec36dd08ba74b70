//! Documents: what a fronthaul is configured with and what happens on it, as lines of text.
//!
//! [`read`] answers what a document says, or its first line that is refused and the first reason for that. The grammar is a definition on
//! the bytes of the text, and the answer is exactly the grammar's. Lines are read one by one, and of a line only the bytes of an injected
//! frame take memory. [`write`] writes a document from a seed and a number of slots.
//!
//! By laws of the grammar, stated in `specs/` and proved as lemmas in `proofs/`, what a program wrote is read back; and the text of a
//! document gives, beside its limits, which spacings its endpoints have and how great the numbers of its lines are.
//!
//! Beside the grammar are the lines of a report ([`cell_line`], [`delay_line`], [`count_line`]) and the samples that a [`Tone`] gives, of
//! `air_source`.
#![tactic(auto)]

mod config_lines;
mod deliver_lines;
mod delivered;
mod document;
mod endpoint_lines;
mod frame_numbers;
mod generating;
mod hex;
mod inject_lines;
mod keywords;
mod measure_lines;
mod plan_lines;
mod reading;
mod refusals;
mod words;

pub use air_source::{Tone, ToneSteps, cell_line, count_line, delay_line, tone};
pub use config_lines::MOST_TRANSIT;
pub use deliver_lines::MOST_NUMBER;
pub use delivered::{Copies, Delivery, ListFull, TrafficClass, frame_number};
pub use document::{Comps, Document, Injection, Measure, Transits};
pub use fh_base::Line;
pub use generating::write;
pub use measure_lines::FIRST_MEASURE;
pub use reading::read;
pub use refusals::{DocFault, DocWhy};
