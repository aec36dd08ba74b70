//! eCPRI frames: common headers, concatenated messages and their padding, in any pieces.
//!
//! A frame carries one eCPRI protocol data unit (PDU): messages, each a common header of four
//! bytes and its payload. A message whose C bit is set is followed by 0 to 3 padding bytes, up to
//! a multiple of 4 from its own start, and by another message. [`Pdu`] reads a frame that is
//! received in pieces of any length; [`messages`] goes over the complete messages of a frame that
//! is held as a whole; [`put_head`] and [`pad_after`] serve those who write one.
#![tactic(auto)]

mod decoding;
mod heads;
mod phases;
mod refusals;
mod starting;
mod steps;
mod turns;
mod whole;

pub use decoding::Pdu;
pub use heads::{Head, IQ_DATA, ONE_WAY_DELAY, REAL_TIME_CONTROL, pad_after, put_head, read_head};
pub use refusals::{PduRefusal, PduWhy};
pub use starting::messages;
pub use steps::{Feed, PduStep};
pub use whole::{Messages, WholeMessage};
