//! U-plane application messages of O-RAN.WG4.CUS, in any pieces.
//!
//! A message is a header of four bytes and sections up to its end. Each section is a header of four
//! bytes, a compression header of two where the format is dynamic, and the packed PRBs that it
//! names. [`UWalker`] reads a message that is received in pieces of any length; [`read_head`] reads a
//! header alone; [`put_head`] and [`put_section`] write the headers. Nothing allocates, and a PRB that lies
//! completely in a piece is unpacked from there, or lent, or passed over.
#![tactic(auto)]

mod phases;
mod read_header;
mod read_section;
mod steps;
mod units;
mod values;
mod walking;
mod writing;

pub use read_header::read_head;
pub use steps::{UFeed, URun, UStep};
pub use values::{UHead, URefusal, USection, UWhy};
pub use walking::UWalker;
pub use writing::{put_head, put_section};
