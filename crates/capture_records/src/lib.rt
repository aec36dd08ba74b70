//! The layout of a capture: a file of the frames that arrived at the two units (this project's profile).
//!
//! A capture begins with the eight bytes of [`MAGIC`]. After them is a record for each arrival: the way (one byte, 0
//! to the radio unit and 1 to the distributed unit), the time in ticks (eight bytes, signed), the frame's length (four
//! bytes) and the frame. Numbers are big-endian.
//!
//! [`record_head`] writes what is before a frame, [`check`] tests a complete capture, and [`records`] goes over the
//! records of one that passed. Nothing allocates, and no bytes are copied.
#![tactic(auto)]

mod checking;
mod heads;
mod iterating;
mod layout;
mod reading;
mod refusals;
mod starting;
mod values;

pub use checking::check;
pub use heads::record_head;
pub use iterating::Records;
pub use layout::MAGIC;
pub use refusals::{CaptureRefusal, CaptureWhy};
pub use starting::records;
pub use values::Record;
