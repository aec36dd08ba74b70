//! The airs by which a program writes a report, its counters, its summary, or a capture.
//!
//! A [`TextAir`] writes each cell, measured delay and counter as a line of this project's profile, a [`CountAir`] the counters' lines
//! alone. A [`CaptureAir`] writes each arrival as a record of `capture_records`. A [`SumAir`] writes a line for each run of cells
//! that follow one another in one symbol of an endpoint, with rising PRBs: the number of elements shown, the sums of their I and of
//! their Q and the number of missing cells. After the runs it has a line for each unit that measured delays, and then the counters.
//!
//! Each collects its bytes and hands them on in large pieces, so the sink holds a front part of the text until `finish` writes the
//! rest, and but for a capture the line `end`. None takes memory but that of the last 16 results of each unit, which
//! [`Sums::make`] takes.
#![tactic(auto)]

mod capture_air;
mod count_air;
mod delay_lines;
mod places;
mod run_lines;
mod runs;
mod sum_air;
mod sums;
mod text_air;
mod totals;

pub use capture_air::CaptureAir;
pub use count_air::CountAir;
pub use sum_air::SumAir;
pub use sums::Sums;
pub use text_air::TextAir;
