// A frame that is received at a unit, and what tells those of one time apart.
use air_source::Side;
use fh_base::{Bytes, Ticks};

/// What orders the frames that are received at one unit at one time.
#[derive(Clone, Copy, Debug, PartialEq, Eq, PartialOrd, Ord)]
pub struct ArrivalKey {
    /// Whether the document gave the frame. Frames that a unit sent are before these.
    pub injected: bool,
    /// The frame's place in the sent order of its way, or in the document if it was injected.
    pub place: u64,
    /// Which copy of the frame this is, from 0.
    pub copy: u8,
}

/// A frame that is received at a unit.
#[derive(Drop)]
pub struct Arrival {
    /// The unit at which the frame is received.
    pub side: Side,
    /// When it is received, in ticks of 1/1536 ns.
    pub at: Ticks,
    /// Where it is among those of its time and unit.
    pub key: ArrivalKey,
    /// The bytes of the frame.
    pub frame: Bytes,
}
