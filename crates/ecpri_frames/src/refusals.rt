//! Why a frame is refused.
ghost use Rattle.std.specs.Prelude.{◌≡◌};
ghost use Rattle.ecpri_frames.specs.Refusals.{name_of};

use thiserror::Error;

/// What is wrong with a frame.
#[derive(Clone, Copy, Debug, PartialEq, Eq, Error)]
pub enum PduWhy {
    /// The first byte of a header has another revision than 1.
    #[error("a header has another revision than 1")]
    Revision,
    /// The frame ends inside a header or a payload, or where a header must begin.
    #[error("the frame ends inside a message, or where one must begin")]
    Truncated,
    /// The frame ends inside the padding after a message that another one follows.
    #[error("the frame ends inside padding")]
    NoPadding,
}

impl PduWhy {
    /// The name under which the reason is printed: its own.
    pub fn name(self) -> &'static str
        ensures name { result.now ≡ name_of self }
    {
        match self {
            PduWhy::Revision => "Revision",
            PduWhy::Truncated => "Truncated",
            PduWhy::NoPadding => "NoPadding",
        }
    }
}

/// The first fault of a frame.
#[derive(Clone, Copy, Debug, PartialEq, Eq, Error)]
#[error("byte {place}: {why}")]
pub struct PduRefusal {
    /// The byte of the frame, from 0: the header's first byte for `Revision`, else the frame's
    /// length.
    pub place: usize,
    /// What is wrong there.
    pub why: PduWhy,
}
