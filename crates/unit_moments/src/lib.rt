//! What a unit does with the frames that land at it at one time, for either unit: the air is told of each and hands it to the unit, the
//! unit's meter is told it, and the delays that it makes known are told after it.
//!
//! What hears the events is a [`ListeningAir`]: of each frame it may hear too what the unit judges. Each [`Air`](air_source::Air) is one
//! that does not, so a replay that listens to no unit is told to it as it is.
//!
//! The contracts speak of the lists that the boxes stand for: what was sent on the way (`OnWay`), what the meter was told (`Doings`), and
//! the unit's history. What a document has to do with them is not said here.
#![tactic(auto)]

mod landing;
mod listening;
mod made;
mod reports;
mod results;

pub use landing::land;
pub use listening::ListeningAir;
pub use made::send_made;
pub use reports::Reports;
pub use results::tell_results;
