//! What an explanation of a replay says of its events, by definition: the line of each frame, message, section and cell, and over all
//! events why cells are missing, why elements of a plan are silent, and which blocks no cell shows (this project's profile).
//!
//! An [`ExplainLine`] has a constructor for each kind of line. [`put_line`] writes its text, without memory; [`is_fault`] tells whether the
//! text of the faults has it.
//!
//! A reason needs little of what happened: one small record for each decoded section of data, each section of a command that names
//! elements, each message of data that was refused or had the other unit's direction, each fragment that was received under a used sequence
//! id, each message that stays unfinished, and each run of cells. A record names its slot and its endpoint by its index in the
//! configuration, and has the number of the arrival that made it. `specs/Keys.antt` says for which symbols it counts.
//!
//! How the lines grow as events occur, and that they are at the front of the complete text, is stated in `specs/` and proved by lemmas in
//! `proofs/`.
#![tactic(auto)]

mod data;
mod faults;
mod headers;
mod heads;
mod keys;
mod line_sections;
mod lines;
mod places;
mod reason_words;
mod reasons;
mod runs;
mod sections;
mod sum_words;
#[cfg(test)]
mod tests;
mod values;
mod words;

pub use data::DataRecord;
pub use faults::is_fault;
pub use headers::{BeginningRecord, HeaderRecord, HeaderWhy, RepeatedRecord};
pub use keys::{SlotKey, SymbolKey};
pub use lines::put_line;
pub use places::{Clash, MessagePlace, PrbRun, SymbolPlace, Timing};
pub use reasons::{Reason, ReasonWord};
pub use runs::CellRun;
pub use sections::CommandRecord;
pub use values::{
    CellWord, CommandAnswer, ControlLine, DataLine, ExplainLine, Margin, MarginClass, WholeAnswer,
    WholeLine, WindowName,
};
