//! The frames that leave a unit at one time go on their way: those of the distributed unit's plan, and the radio unit's uplink frames.
//!
//! The contracts speak of the lists that the boxes stand for: the frames that a plan has still to send, those that a queue was handed, and
//! what was sent on the way (`OnWay`). What a document has to do with them is not said here.
#![tactic(auto)]

mod due;
mod release;

pub use due::send_due;
pub use release::release_all;
