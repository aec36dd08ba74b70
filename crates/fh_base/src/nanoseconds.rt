ghost use Rattle.std.specs.Prelude.{◌≡◌, pos, neg_ℤ, ◌^◌, ◌≤ℤ◌, ◌*ℤ◌};
ghost use Rattle.fh_base.specs.declared.nanoseconds.TheConstants.{NANOSECOND};

use crate::values::Ticks;

/// The ticks of a nanosecond.
pub const NANOSECOND: u64 = 1_536;

/// The latest time that a document or a capture names, 1,000 s, in nanoseconds.
pub const LAST_TIME: u64 = 1_000_000_000_000;

/// The end of time, 1,100 s, in ticks: no unit reports and no frame leaves later.
pub const END_OF_TIME: u64 = 1_689_600_000_000_000;

/// Whole nanoseconds in ticks.
pub fn of_ns(ns: i64) -> Ticks
    requires low { neg_ℤ (pos (2 ^ 50)) ≤ℤ ns }
    requires high { ns ≤ℤ pos (2 ^ 50) }
    ensures { result.0 ≡ ns *ℤ pos NANOSECOND }
{
    Ticks(ns * NANOSECOND as i64)
}
