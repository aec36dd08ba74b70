//! The frames of a plan as bytes: the C-plane command of a line, and the fragments of a downlink U-plane message of lines in one
//! symbol.
//!
//! [`command_frame`] and [`data_frame`] write one frame at the front of a slice with room. They turn lines into the headers and
//! sections of `frame_bytes`, which writes these. Which line gives which field is this project's profile; the fields are those of
//! O-RAN.WG4.CUS. Nothing allocates.
#![tactic(auto)]

mod commands;
mod data;

pub use commands::command_frame;
pub use data::{Fragment, data_frame, data_section};
