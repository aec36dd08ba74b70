//! The bytes of sent frames: C-plane commands, and pieces of U-plane messages, for both directions.
//!
//! [`command`] writes the frame of a C-plane message with one section. [`piece`] writes the frame of
//! a U-plane message's bytes from one place to another, for a message of a head, sections and a
//! source that answers the samples of each PRB. It asks the source only for the PRBs that these
//! bytes touch, so a message is never kept. Nothing allocates: frames are written where there is
//! room.
#![tactic(auto)]

mod commands;
mod cuts;
mod messages;
mod parts;
mod pieces;
mod transport;

pub use commands::command;
pub use messages::{Carrier, DataMessage, DataSection, message_size, section_size};
pub use pieces::{Span, piece};
