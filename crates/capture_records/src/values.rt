// What a record of a capture tells.
use air_source::Side;
use fh_base::Ticks;

/// A record of a capture: a frame that arrived.
#[derive(Clone, Copy, Debug, PartialEq, Eq)]
pub struct Record<'a> {
    /// The unit at which it arrived.
    pub side: Side,
    /// When it arrived.
    pub at: Ticks,
    /// Its bytes.
    pub frame: &'a [u8],
}
