// The frame of a packet, where it is wanted.
ghost use Rattle.std.specs.Prelude.{◌<◌, ◌^◌};

use air_source::Side;

/// An eCPRI frame that is wanted.
#[derive(Clone, Copy)]
pub struct Wanted<'a> {
    /// The unit that it goes to.
    pub side: Side,
    /// When its packet was seen, in nanoseconds.
    pub time: u128,
    pub frame: &'a [u8],
    ghost small: { time < 2 ^ 96 },
}
