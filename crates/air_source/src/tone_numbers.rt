// The numbers that name elements.
ghost use Rattle.std.specs.Prelude.{◌≡◌, ◌+◌, ◌*◌, ◌^◌, ◌<◌, ◌≤◌};
ghost use Rattle.air_source.specs.Tones.{frame_part, base_of};

use crate::{RePlace, Tone};

// The remainder of a frame by 256, which is not negative.
#[inline(always)]
fn frame_rest(frame: i64) -> u64
    ensures value { result ≡ frame_part frame }
    ensures small { result < 256 }
{
    frame.rem_euclid(256).unsigned_abs()
}

// The number of element 0 of the place's PRB.
#[inline(always)]
pub(crate) fn base(t: Tone, place: RePlace) -> u64
    ensures value { result ≡ base_of t place }
    ensures small { result < 2 ^ 40 }
{
    let slot = place.slot;
    u64::from(t.seed)
        + 1009 * u64::from(place.id)
        + 613 * frame_rest(slot.frame)
        + 409 * u64::from(slot.subframe)
        + 307 * u64::from(slot.slot)
        + 211 * u64::from(place.symbol)
        + 101 * u64::from(place.prb)
}
