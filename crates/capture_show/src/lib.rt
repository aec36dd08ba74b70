//! What the frames of a capture say, as lines of text or as JSON (this project's profile).
//!
//! [`show`] goes over the records of a capture of any origin. Each record is a `frame` line, a line for each whole message of its
//! frame, lines for the sections of a command, and the line `broken` where the frame is refused. A line is a first word and members,
//! each a name with a number or a word. The text has `name=value` for each member; JSON has one object for each line, in one
//! array.
#![tactic(auto)]

mod capture_lines;
mod command_lines;
mod line;
mod message_lines;
mod names;
mod objects;
mod opening;
mod printing;
mod showing;
mod values;
mod words;

pub use showing::{ShowFault, show};
