//! Going over a complete U-plane message in place, in the pieces that a lease lends.
//!
//! [`DataWalk`] is an iterator over what the message tells: its header, the header of each section,
//! and each PRB, unpacked; [`DataWalk::run`] and [`DataWalk::join`] give packed PRBs instead. [`tested`] goes to the end of a message
//! and says whether it is refused. Nothing joins the pieces, and nothing takes memory.
#![tactic(auto)]

mod run;
mod testing;
mod walk;

pub use run::{DataRun, JoinedPrb};
pub use testing::tested;
pub use walk::DataWalk;
