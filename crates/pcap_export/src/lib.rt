//! A capture, written as a classic pcap file of nanoseconds (this project's profile).
//!
//! [`check`] tests a capture, and [`put_pcap`] writes the frames of one that passed, those to both units or to one. [`run`] does both
//! for the words of a call, over a source and a sink: it is the program `capture_pcap` but for the real streams.
#![tactic(auto)]

mod checking;
mod messages;
mod packets;
mod refusals;
mod running;
mod status;
mod ways;
mod words;
mod writing;

pub use checking::check;
pub use messages::write_message;
pub use refusals::{ExportRefusal, ExportWhy};
pub use running::run;
pub use status::Status;
pub use ways::Ways;
pub use writing::put_pcap;
