// A frame of a unit.
ghost use Rattle.std.specs.Prelude.{◌≡◌};

use air_source::Side;
use ecpri_frames::PduRefusal;
use explain_model::ExplainLine;
use fh_base::Ticks;

/// A frame that arrived at a unit, as its own line names it.
#[derive(Clone, Copy)]
pub struct FrameHeard {
    /// The number of the arrival; the first of both units has 1.
    pub number: u32,
    /// The unit.
    pub side: Side,
    /// When it arrived.
    pub at: Ticks,
    /// How many bytes it has.
    pub bytes: usize,
    /// Its refusal, if it has one.
    pub refusal: Option<PduRefusal>,
}

impl FrameHeard {
    ghost use Rattle.explain_units.specs.Frames.{line_of};

    // Its own line.
    pub(crate) fn line(&self) -> ExplainLine
        ensures { result ≡ line_of self.now }
    {
        ExplainLine::Frame {
            number: self.number,
            side: self.side,
            at: self.at,
            bytes: self.bytes,
            refusal: self.refusal,
        }
    }
}
