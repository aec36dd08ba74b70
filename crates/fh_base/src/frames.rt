ghost use Rattle.std.specs.Prelude.{◌≡◌, ℤ, pos, neg_ℤ, ◌^◌, ◌≤ℤ◌};
ghost use Rattle.fh_base.specs.Frame.{IsFrame, absolute_frame};

use crate::values::Ticks;

/// The ticks of a frame, which is 10 ms.
pub const FRAME: i64 = 15_360_000_000;

/// A unit's clock begins one frame before 0.
pub const FIRST_CLOCK: Ticks = Ticks(-FRAME);

/// Half of the time in which each frameId occurs once, which is 1.28 s.
pub const HALF_CYCLE: i64 = 1_966_080_000_000;

/// The absolute frame that a frameId means at a time: the one frame with these low 8 bits whose start lies from 1.28 s
/// before the time to less than 1.28 s after it. It may be negative.
pub fn resolve(frame_id: u8, at: Ticks) -> i64
    requires low { neg_ℤ (pos (2 ^ 56)) ≤ℤ at.0 }
    requires high { at.0 ≤ℤ pos (2 ^ 56) }
    ensures value { result ≡ absolute_frame frame_id at.0 }
    ensures is_frame { IsFrame frame_id at.0 result }
    ensures only { (other : ℤ) → IsFrame frame_id at.0 other → other ≡ result }
{
    let first = (at.0 + (FRAME - 1)).div_euclid(FRAME) - 128;
    first + (frame_id as i64 - first).rem_euclid(256)
}
