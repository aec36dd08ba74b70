//! When the endpoints of a document are idle, as text, and the plan lines that it proposes (this project's profile).
//!
//! [`idle_text`] writes for each endpoint its listed spans, and for each slot that lies in one of them and that no downlink line of the
//! plan touches a plan line of section type 0; `end` is at the end. Each line is built in a [`fh_base::Line`], without memory, and ends
//! with a line feed.
//!
//! The definitions are in `specs/`: the listed spans of an endpoint as a list, and its free slots. Free slots are kept as flags
//! ([`set_slots`], [`clear_touched`]).
#![tactic(auto)]

mod endpoints;
mod flags;
mod lines;
mod numbers;
mod telling;

pub use endpoints::idle_text;
pub use flags::{clear_touched, no_flags, set_slots};
pub use lines::{idle_line, put_plan_line, put_span_line};
pub use numbers::number_of;
