// Whether a message is on time for a symbol.
ghost use Rattle.std.specs.Prelude.{◌≡◌, ◌↔◌, pos, neg_ℤ, ◌^◌, ◌≤ℤ◌, ◌<ℤ◌, ◌-ℤ◌};
ghost use Rattle.window_config.specs.Limits.{IsWindow};
ghost use Rattle.window_config.specs.Windows.{ticks_of_ns};
ghost use Rattle.window_config.specs.Classes.{classified, class_of, class_up_of, IsOnTime, IsOnTimeUp};

use crate::delays::Range;
use crate::distances::{is_longer, is_shorter};
use crate::verdicts::Class;
use fh_base::Ticks;

/// The class of what is late or not, and early or not: what is late is no more said to be early.
fn classified(is_late: bool, is_early: bool) -> Class
    ensures { result ≡ classified is_late is_early }
{
    if is_late {
        Class::Late
    } else if is_early {
        Class::Early
    } else {
        Class::OnTime
    }
}

/// The class at the RU of a message whose first and last part arrived at these times, for a symbol that starts at `s`.
///
/// It is Late where its last part is received less than the window's minimum before the symbol, else Early where its first part is received
/// more than the maximum before it, else OnTime: both ends are inclusive.
pub fn class(first: Ticks, last: Ticks, s: Ticks, window: Range) -> Class
    requires first_low { neg_ℤ (pos (2 ^ 56)) ≤ℤ first.0 }
    requires first_high { first.0 ≤ℤ pos (2 ^ 56) }
    requires last_low { neg_ℤ (pos (2 ^ 56)) ≤ℤ last.0 }
    requires last_high { last.0 ≤ℤ pos (2 ^ 56) }
    requires s_low { neg_ℤ (pos (2 ^ 56)) ≤ℤ s.0 }
    requires s_high { s.0 ≤ℤ pos (2 ^ 56) }
    requires window { IsWindow window }
    ensures value { result ≡ class_of first.0 last.0 s.0 window }
    ensures late { (result ≡ Class.Late) ↔ ((s.0 -ℤ last.0) <ℤ ticks_of_ns window.min) }
    ensures on_time { (result ≡ Class.OnTime) ↔ IsOnTime first.0 last.0 s.0 window }
{
    let is_late = is_shorter(last, s, window.min);
    let is_early = is_longer(first, s, window.max);
    classified(is_late, is_early)
}

/// The class at the DU of a message whose first and last part arrived at these times, for a symbol that starts at `s`.
///
/// It is Late where its last part is received more than the window's maximum after the symbol, else Early where its first part is received
/// less than the minimum after it, else OnTime: both ends are inclusive.
pub fn class_up(first: Ticks, last: Ticks, s: Ticks, window: Range) -> Class
    requires first_low { neg_ℤ (pos (2 ^ 56)) ≤ℤ first.0 }
    requires first_high { first.0 ≤ℤ pos (2 ^ 56) }
    requires last_low { neg_ℤ (pos (2 ^ 56)) ≤ℤ last.0 }
    requires last_high { last.0 ≤ℤ pos (2 ^ 56) }
    requires s_low { neg_ℤ (pos (2 ^ 56)) ≤ℤ s.0 }
    requires s_high { s.0 ≤ℤ pos (2 ^ 56) }
    requires window { IsWindow window }
    ensures value { result ≡ class_up_of first.0 last.0 s.0 window }
    ensures late { (result ≡ Class.Late) ↔ (ticks_of_ns window.max <ℤ (last.0 -ℤ s.0)) }
    ensures on_time { (result ≡ Class.OnTime) ↔ IsOnTimeUp first.0 last.0 s.0 window }
{
    let is_late = is_longer(s, last, window.max);
    let is_early = is_shorter(s, first, window.min);
    classified(is_late, is_early)
}
