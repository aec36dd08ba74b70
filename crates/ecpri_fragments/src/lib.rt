//! Messages of eCPRI type 0 from their fragments, in memory that is taken once.
//!
//! An application message may be received in up to 128 fragments, in any order and more than once (O-RAN.WG4.CUS, section
//! 5.1.3.2, ecpriSeqid). Fragments of one endpoint and one sequence id form generations by their times: see `specs/Generations.antt`.
#![tactic(auto)]

mod assembly;
mod parts;
mod place;
mod pool;
mod sequence;
mod verdict;

pub use assembly::{Assembly, Lease, Taken};
pub use place::MESSAGE_BYTES;
pub use sequence::{SeqField, put_seq, read_seq};
pub use verdict::Verdict;
