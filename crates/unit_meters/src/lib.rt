//! Both units' meters, and the measurements that begin at their times (eCPRI 2.0, section 3.2.4.6).
//!
//! The contracts speak of the lists that the boxes stand for: the measurements that have still to begin (`Begin`), and what each unit has
//! of delay measurement (`Doings`). What a document has to do with them is not said here.
#![tactic(auto)]

mod meters;

pub use meters::Meters;
