//! C-plane application messages of O-RAN.WG4.CUS, section types 0, 1 and 3.
//!
//! [`check`] tests a message and reads its header, [`sections`] goes over its sections, and [`put_head`] and
//! [`put_section`] write one. Nothing allocates, and no bytes are copied.
#![tactic(auto)]

mod checking;
mod iterating;
mod passing;
mod read_header;
mod read_section;
mod starting;
mod values;
mod write_header;
mod write_section;

pub use checking::check;
pub use iterating::Sections;
pub use starting::sections;
pub use values::{CBody, CHead, CRefusal, CSection, CWhy};
pub use write_header::put_head;
pub use write_section::put_section;
