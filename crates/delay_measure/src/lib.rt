//! One-way delay measurement by eCPRI messages of type 5: their payload, the exchange of each measurement id, and
//! the last results.
//!
//! [`Measurements`] send and answer the messages of 256 measurement ids; each call is given the unit's
//! [`Compensation`]. A [`Meter`] asks a closure for it. A time stamp is in whole nanoseconds, a compensation and a
//! result in units of 2^-16 ns, and the time of a call in ticks of 1/1536 ns.
#![tactic(auto)]

mod edge;
mod history;
mod measurements;
mod message;
mod meter;
mod stamps;
mod states;
mod steps;
mod table;

pub use edge::{Compensation, Edge};
pub use history::History;
pub use measurements::Measurements;
pub use message::{DelayMessage, put_delay, read_delay};
pub use meter::Meter;
pub use stamps::{MOST_COMPENSATION, Stamp};
pub use states::{Exchange, OwnState, PeerState};
pub use steps::{Begun, Kind, MeterStep};
