//! The lines of the frames of one unit in the order in which they are received, and what an explanation keeps between events.
//!
//! [`UnitLines`] tells a `LineSink` the lines of each frame, from what the unit judges of it, and in the end the margins of its sections
//! ([`Margins`]). What earlier sections gave ([`Blocks`]) and claimed ([`Claims`]) is found for one symbol or slot at a time. An
//! [`OpenRun`] is the run of cells that may go on.
#![tactic(auto)]

mod blocks;
mod chains;
mod claims;
mod earlier;
mod frames;
mod given;
mod kept_margins;
mod margins;
mod runs;
mod telling;
mod units;

pub use blocks::{Blocks, Given};
pub use claims::Claims;
pub use frames::FrameHeard;
pub use kept_margins::{EndpointMargins, Margins, control_class, data_class, is_of_some};
pub use runs::OpenRun;
pub use units::UnitLines;
