//! Why a capture is refused.
ghost use Rattle.std.specs.Prelude.{◌≡◌, ◌≤◌, length};
ghost use Rattle.capture_records.specs.Refusals.{name_of};

use thiserror::Error;

/// What is wrong with a capture.
#[derive(Clone, Copy, Debug, PartialEq, Eq, Error)]
pub enum CaptureWhy {
    /// The magic is not there, or other bytes are in its place.
    #[error("not a capture")]
    Magic,
    /// The capture ends inside a record.
    #[error("the capture ends inside a record")]
    Cut,
    /// The way is neither 0 nor 1.
    #[error("a way that is neither 0 nor 1")]
    Way,
}

impl CaptureWhy {
    /// The name under which the reason is printed: its own.
    pub fn name(self) -> &'static str
        ensures name { result.now ≡ name_of self }
        ensures short { length result.now ≤ 5 }
    {
        match self {
            CaptureWhy::Magic => "Magic",
            CaptureWhy::Cut => "Cut",
            CaptureWhy::Way => "Way",
        }
    }
}

/// The first fault of a capture.
#[derive(Clone, Copy, Debug, PartialEq, Eq, Error)]
#[error("byte {place}: {why}")]
pub struct CaptureRefusal {
    /// The byte of the capture, from 0, at which the record begins; 0 for `Magic`.
    pub place: usize,
    /// What is wrong there.
    pub why: CaptureWhy,
}
