//! The top call: everything that the program does but for the real streams.
//!
//! [`run`] does what words ask for over a source and a sink. One definition (`specs/Answers.antt`) says for a command and a whole
//! input the one text and the status of a run that nothing keeps from its end, and one record (`Outcome` of `specs/Run.antt`) what
//! a run did of it.
#![tactic(auto)]

mod commands;
mod endings;
mod messages;
mod planning;
mod running;
mod status;

pub use messages::write_message;
pub use running::run;
pub use status::{LineWhy, Status};
