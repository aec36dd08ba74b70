// Times between two moments, compared with whole nanoseconds.
ghost use Rattle.std.specs.Prelude.{◌≡◌, pos, neg_ℤ, ◌^◌, ◌≤ℤ◌, ◌-ℤ◌, int_lt};
ghost use Rattle.window_config.specs.Limits.{IsBound};
ghost use Rattle.window_config.specs.Windows.{ticks_of_ns};

use fh_base::{Ticks, of_ns};

/// Whether `to` is less than so many nanoseconds after `from`.
pub(crate) fn is_shorter(from: Ticks, to: Ticks, ns: i64) -> bool
    requires from_low { neg_ℤ (pos (2 ^ 57)) ≤ℤ from.0 }
    requires from_high { from.0 ≤ℤ pos (2 ^ 57) }
    requires to_low { neg_ℤ (pos (2 ^ 57)) ≤ℤ to.0 }
    requires to_high { to.0 ≤ℤ pos (2 ^ 57) }
    requires ns { IsBound ns }
    ensures { result ≡ int_lt (to.0 -ℤ from.0) (ticks_of_ns ns) }
{
    to.0 - from.0 < of_ns(ns).0
}

/// Whether `to` is more than so many nanoseconds after `from`.
pub(crate) fn is_longer(from: Ticks, to: Ticks, ns: i64) -> bool
    requires from_low { neg_ℤ (pos (2 ^ 57)) ≤ℤ from.0 }
    requires from_high { from.0 ≤ℤ pos (2 ^ 57) }
    requires to_low { neg_ℤ (pos (2 ^ 57)) ≤ℤ to.0 }
    requires to_high { to.0 ≤ℤ pos (2 ^ 57) }
    requires ns { IsBound ns }
    ensures { result ≡ int_lt (ticks_of_ns ns) (to.0 -ℤ from.0) }
{
    of_ns(ns).0 < to.0 - from.0
}
