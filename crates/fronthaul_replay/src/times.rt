// Times in the order of a replay.
ghost use Rattle.std.specs.Prelude.{◌≡◌, pos, ◌+ℤ◌, ◌≤ℤ◌, int_le};
ghost use Rattle.replay_laws.specs.Moments.{end_of_time};
ghost use Rattle.fronthaul_replay.specs.Turns.{within_end};

use fh_base::{END_OF_TIME, Ticks};

/// A time, if it is not after the end.
pub(crate) fn up_to_end(time: Option<Ticks>) -> Option<Ticks>
    ensures { result ≡ within_end time }
{
    match time {
        Some(t) if t.0 <= END_OF_TIME as i64 => Some(t),
        _ => None,
    }
}

/// Whether a time is not after another.
pub(crate) fn is_up_to(now: Ticks, tick: Ticks) -> bool
    ensures { result ≡ int_le now.0 tick.0 }
{
    now.0 <= tick.0
}

/// The tick after one.
pub(crate) fn tick_after(tick: Ticks) -> Ticks
    requires { tick.0 ≤ℤ end_of_time }
    ensures { result.0 ≡ tick.0 +ℤ pos 1 }
{
    Ticks(tick.0 + 1)
}
