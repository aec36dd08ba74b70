// The frames that show that a relation fails.
ghost use Rattle.std.specs.Prelude.{◌≡◌, ◌↔◌, pos, neg_ℤ, ◌≤ℤ◌, IsTrue, IsNone, IfSome};
ghost use Rattle.window_config.specs.Limits.{IsWithinLimits};
ghost use Rattle.window_config.specs.Relations.{holds};
ghost use Rattle.window_plan.specs.Breaches.{extreme_of, breach_of, Breaks};

use crate::breaches::Breach;
use crate::fitting::hold_for;
use window_config::{Delays, Relation};

// whether the relation holds
fn is_met(d: &Delays, r: Relation) -> bool
    requires { IsWithinLimits d.now }
    ensures { result ≡ holds r d.now }
{
    match r {
        Relation::UpMax => d.t1a_up.max <= d.t2a_up.max + d.t12.min,
        Relation::UpMin => d.t2a_up.min + d.t12.max <= d.t1a_up.min,
        Relation::CpUlMax => d.t1a_cp_ul.max <= d.t2a_cp_ul.max + d.t12.min,
        Relation::CpUlMin => d.t2a_cp_ul.min + d.t12.max <= d.t1a_cp_ul.min,
        Relation::Ta4Min => d.ta4.min <= d.ta3.min + d.t34.min,
        Relation::Ta4Max => d.ta3.max + d.t34.max <= d.ta4.max,
        Relation::HoldDl => hold_for(d.t1a_up, d.t12) <= d.hold_dl,
        Relation::HoldUl => hold_for(d.ta3, d.t34) <= d.hold_ul,
    }
}

// a time before a symbol, counted from its start
fn before(ns: i64) -> i64
    requires { pos 0 ≤ℤ ns }
    ensures { result ≡ neg_ℤ ns }
{
    -ns
}

// a frame at one end of its window and of its delay
fn frame(sent: i64, delay: i64) -> Breach
    ensures { result ≡ Breach.One sent delay }
{
    Breach::One { sent, delay }
}

// the frames that are received earliest or latest of those that the relation speaks of
fn extreme(d: &Delays, r: Relation) -> Breach
    requires { IsWithinLimits d.now }
    ensures { result ≡ extreme_of r d.now }
{
    match r {
        Relation::UpMax => frame(before(d.t1a_up.max), d.t12.min),
        Relation::UpMin => frame(before(d.t1a_up.min), d.t12.max),
        Relation::CpUlMax => frame(before(d.t1a_cp_ul.max), d.t12.min),
        Relation::CpUlMin => frame(before(d.t1a_cp_ul.min), d.t12.max),
        Relation::Ta4Min => frame(d.ta3.min, d.t34.min),
        Relation::Ta4Max => frame(d.ta3.max, d.t34.max),
        Relation::HoldDl => Breach::Two {
            sent: before(d.t1a_up.max),
            delay: d.t12.min,
            later: before(d.t1a_up.min),
            later_delay: d.t12.max,
        },
        Relation::HoldUl => Breach::Two {
            sent: d.ta3.min,
            delay: d.t34.min,
            later: d.ta3.max,
            later_delay: d.t34.max,
        },
    }
}

/// What shows that a relation of a delay profile fails; None exactly where it holds.
///
/// Of the first six relations it is one frame, whose class at the unit that hears it is never OnTime: Early where the relation
/// bounds the earliest arrivals, and Late where it bounds the latest. Of the two on a hold it is two frames of one message, the
/// later of which begins another generation.
pub fn breach(d: &Delays, r: Relation) -> Option<Breach>
    requires { IsWithinLimits d.now }
    ensures value { result ≡ breach_of r d.now }
    ensures none { IsNone result ↔ IsTrue (holds r d.now) }
    ensures breaks { IfSome result (Breaks r d.now) }
{
    if is_met(d, r) {
        None
    } else {
        Some(extreme(d, r))
    }
}
