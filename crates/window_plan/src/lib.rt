//! Planning the windows of an open fronthaul: why those of a delay profile fail, the greatest ones that fit, and the texts on both.
//!
//! [`fit`] gives the greatest windows that pass the check of `window_config` while the network and the radio unit stay as they
//! are, and says where there are none. [`breach`] shows for a relation that fails a frame that is sent in its window, takes a
//! delay within the bounds and arrives outside the other unit's window, or two frames of one message that arrive too far apart.
//!
//! [`put_windows`] writes the windows of both units, the ring sizes of each endpoint and the check of the profile. [`put_fit`] writes
//! for each relation that fails the frames that show it, and then the greatest windows that fit. Each line ends with a line feed, its
//! words are parted by one space, and numbers are decimal (this project's profile). Delay management follows O-RAN.WG4.CUS. Times are
//! whole nanoseconds. Nothing takes memory but the sink.
#![tactic(auto)]

mod breaches;
mod fit_texts;
mod fitting;
mod refusals;
mod window_texts;
mod witnesses;

pub use breaches::Breach;
pub use fit_texts::put_fit;
pub use fitting::fit;
pub use refusals::{NoFit, Window};
pub use window_texts::put_windows;
pub use witnesses::breach;
