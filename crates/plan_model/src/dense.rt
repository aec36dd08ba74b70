// Whether two messages leave too near to one another.
ghost use Rattle.std.specs.Prelude.{◌≡◌, All, pos, neg_ℤ, ◌^◌, ◌≤ℤ◌, ◌-ℤ◌, int_le};
ghost use Rattle.window_config.specs.Limits.{IsWithinLimits};
ghost use Rattle.plan_model.specs.Dense.{IsSending, dense_in, down_distance, is_near, up_distance};

use fh_base::{Ticks, of_ns};
use window_config::Delays;

/// When the first frame of a data message leaves, and the place of its first section's line in the plan.
#[derive(Clone, Copy, Debug, PartialEq, Eq)]
pub struct Sending {
    pub at: Ticks,
    pub line: usize,
}

/// A data message that leaves too near to the one 256 before it.
#[derive(Clone, Copy, Debug, PartialEq, Eq)]
pub struct Dense {
    /// Its number in its stream.
    pub number: usize,
    /// The place of its first section's line in the plan.
    pub line: usize,
}

/// How near two downlink data messages with one sequence id are too near: `hold` and how much longer one frame may take than
/// another.
pub fn down_distance(d: &Delays) -> Ticks
    requires { IsWithinLimits d.now }
    ensures value { result.0 ≡ down_distance d.now }
    ensures low { pos 0 ≤ℤ result.0 }
    ensures high { result.0 ≤ℤ pos (2 ^ 33) }
{
    of_ns(d.hold_dl + (d.t12.max - d.t12.min))
}

/// The same of uplink data.
pub fn up_distance(d: &Delays) -> Ticks
    requires { IsWithinLimits d.now }
    ensures value { result.0 ≡ up_distance d.now }
    ensures low { pos 0 ≤ℤ result.0 }
    ensures high { result.0 ≤ℤ pos (2 ^ 33) }
{
    of_ns(d.hold_ul + (d.t34.max - d.t34.min))
}

/// Whether a time is no more than a distance after another.
fn is_soon(distance: Ticks, later: Ticks, earlier: Ticks) -> bool
    requires later_low { neg_ℤ (pos (2 ^ 57)) ≤ℤ later.0 }
    requires later_high { later.0 ≤ℤ pos (2 ^ 57) }
    requires earlier_low { neg_ℤ (pos (2 ^ 57)) ≤ℤ earlier.0 }
    requires earlier_high { earlier.0 ≤ℤ pos (2 ^ 57) }
    ensures { result ≡ int_le (later.0 -ℤ earlier.0) distance.0 }
{
    later.0 - earlier.0 <= distance.0
}

/// Whether two times are no more than a distance apart, whichever is the earlier.
pub fn is_near(distance: Ticks, a: Ticks, b: Ticks) -> bool
    requires a_low { neg_ℤ (pos (2 ^ 57)) ≤ℤ a.0 }
    requires a_high { a.0 ≤ℤ pos (2 ^ 57) }
    requires b_low { neg_ℤ (pos (2 ^ 57)) ≤ℤ b.0 }
    requires b_high { b.0 ≤ℤ pos (2 ^ 57) }
    ensures { result ≡ is_near distance.0 a.0 b.0 }
{
    is_soon(distance, a, b) && is_soon(distance, b, a)
}

/// The first of a stream's messages that leaves no more than a distance from the one 256 before it.
pub fn dense_in(distance: Ticks, sendings: &[Sending]) -> Option<Dense>
    requires { All IsSending sendings.now }
    ensures { result ≡ dense_in distance.0 sendings.now }
{
    for k in 256..sendings.len() {
        let later = sendings[k];
        if is_near(distance, sendings[k - 256].at, later.at) {
            return Some(Dense {
                number: k,
                line: later.line,
            });
        }
    }
    None
}
