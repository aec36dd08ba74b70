//! The combined cells of units that share a cell.
//!
//! Several radio units of one cell send the same uplink resource elements, each by a fronthaul of its own. A [`Mixer`] takes
//! the cells that their distributed units report, and adds up those of one place: the same endpoint, slot, symbol and PRB.
//! A [`Mixed`] cell says how many units had samples there, and has the [`Sum`] of each element.
#![tactic(auto)]

mod finding;
mod joining;
mod mixing;
mod places;
mod values;

pub use mixing::Mixer;
pub use values::{Mixed, Sum};
