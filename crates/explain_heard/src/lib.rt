//! What a unit judges of a frame, kept as small values ([`Heard`]): what the lines and the reasons of an explanation need of it.
//!
//! A [`Hearing`] is the listener that keeps them. It cannot fail: where memory is refused it notes that and keeps no more, and what it has
//! then says nothing.
//!
//! [`judge_all`] makes a [`Judged`] of each of these values, once: where it is, its verdict and its timing. Its line is made of that here
//! too, but for what it says of earlier ones: which section an overlapping one clashes with, and how many PRBs had no block before, are
//! given to it.
//!
//! [`LineRuns`] makes one line of each run of items. It is given items one by one, holds the run that is open, and tells its line to a
//! [`LineSink`] when an item is given that does not go on with it, or at the end. What the items and the lines are is said by [`RunItem`].
#![tactic(auto)]

mod building;
mod heard;
mod hearing;
mod items;
mod judged;
mod judging;
mod naming;
mod pieces;
mod runs;
mod sinks;
mod timings;
mod words;

pub use building::{control_line, data_line, fragment_line, message_line, whole_line};
pub use heard::{FragmentHeard, Heard, MessageHeard, MessageWord, WholeHeard};
pub use hearing::Hearing;
pub use items::RunItem;
pub use judged::{CommandJudged, DataJudged, Judged, WholeJudged};
pub use judging::judge_all;
pub use naming::symbol_named;
pub use runs::LineRuns;
pub use sinks::LineSink;
