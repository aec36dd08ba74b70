//! The id of an antenna carrier stream: its four parts, and the list of known ids.
//!
//! An id of 16 bits, eAxC_ID of O-RAN's CUS specification and ecpriPcid of eCPRI, is read as four
//! parts whose widths are configured: DU port, band and sector, component carrier and RU port.
#![tactic(auto)]

mod endpoints;
mod widths;

pub use endpoints::{AddFault, Endpoints};
pub use widths::{Parts, WidthSum, Widths};
