//! The words of the command line, and the command that they are.
//!
//! [`read_words`] answers exactly the definition of `specs/Words.antt`: the command that the words are, and
//! [`WordsFault::BadWords`] exactly where they are none. A command that is built is a variant of [`Command`], a case of that
//! definition, and a line in the lemma that its words are plain.
#![tactic(auto)]

mod commands;
mod faults;
mod forms;
mod numbers;
mod parsing;
mod reading;

pub use commands::Command;
pub use faults::WordsFault;
pub use reading::read_words;
