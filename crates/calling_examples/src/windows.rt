// A caller of window_config.
ghost use Rattle.std.specs.Prelude.{◌≡◌, ◌↔◌, ◌^◌, ◌≤ℤ◌, IfOk, IsOk, neg_ℤ, pos};
ghost use Rattle.window_config.specs.declared.verdicts.Class.TheVariants.{OnTime};
ghost use Rattle.window_config.specs.Classes.{IsOnTime, class_of};
ghost use Rattle.window_config.specs.Limits.{IsWithinLimits};
ghost use Rattle.window_config.specs.Relations.{PassesCheck};

use fh_base::Ticks;
use window_config::{Class, Delays, Failing, check, class, data_window};

/// The class at the RU of a downlink U-plane message whose fragments were received from `first` to `last`, for a
/// symbol that starts at `symbol`, and an error exactly where the delay profile cannot work.
pub fn data_class(d: &Delays, first: Ticks, last: Ticks, symbol: Ticks) -> Result<Class, Failing>
    requires limits { IsWithinLimits d.now }
    requires first_low { neg_ℤ (pos (2 ^ 56)) ≤ℤ first.0 }
    requires first_high { first.0 ≤ℤ pos (2 ^ 56) }
    requires last_low { neg_ℤ (pos (2 ^ 56)) ≤ℤ last.0 }
    requires last_high { last.0 ≤ℤ pos (2 ^ 56) }
    requires symbol_low { neg_ℤ (pos (2 ^ 56)) ≤ℤ symbol.0 }
    requires symbol_high { symbol.0 ≤ℤ pos (2 ^ 56) }
    ensures profile { IsOk result ↔ PassesCheck d.now }
    ensures class { IfOk result (λ class. class ≡ class_of first.0 last.0 symbol.0 d.now.t2a_up) }
    ensures on_time { IfOk result (λ class. (class ≡ OnTime) ↔ IsOnTime first.0 last.0 symbol.0 d.now.t2a_up) }
{
    check(d)?;
    Ok(class(first, last, symbol, data_window(d)))
}
