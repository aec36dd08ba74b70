//! The eCPRI frames of a pcap file, as lines of a document and as a capture (this project's profile).
//!
//! [`inject_text`] writes a line `inject WAY NS HEX` for each frame, and [`capture_bytes`] a capture of them. Both take a file that
//! `check` of `pcap_frames` accepted. Nothing here takes memory but the sink.
#![tactic(auto)]

mod captures;
mod digits;
mod injections;
mod pieces;
mod words;

pub use captures::capture_bytes;
pub use injections::inject_text;
