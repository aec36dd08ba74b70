// The axis of times.
ghost use Rattle.std.specs.Prelude.{◌≡◌, ◌++◌, ◌≤◌, ◌<◌, ◌^◌, pos, neg_ℤ, ◌≤ℤ◌, OnOk};
ghost use Rattle.pictures.specs.Axis.{step_of, before_of, after_of, time_of, tick_text, ticks_text, place_of};

use crate::paths::put_down;
use crate::texts::{Anchor, put_text};
use crate::windows::{Windows, column_of, far_of, near_of};
use fh_base::{Bytes, Line, NoMemory};

/// Where a time is.
pub(crate) fn place_of(windows: &Windows, ns: i64) -> u32
    requires low { neg_ℤ (pos (2 ^ 60)) ≤ℤ ns }
    requires high { ns ≤ℤ pos (2 ^ 60) }
    ensures value { result ≡ place_of windows.now ns }
    ensures within { result ≤ 1254 }
{
    214 + column_of(windows, ns)
}

/// The time between two lines of the axis, in nanoseconds.
fn step_of(windows: &Windows) -> u64
    ensures value { result ≡ step_of windows.now }
    ensures some { 100000 ≤ result }
    ensures few { result ≤ 500000 }
{
    if far_of(windows) + near_of(windows) <= 1_300_000 {
        100_000
    } else {
        500_000
    }
}

/// Appends a line of the axis and its time.
#[tactic(auto, unfolding(crate::specs::Axis::tick_text))]
fn put_tick(to: &mut Bytes, windows: &Windows, ns: i64) -> Result<(), NoMemory>
    requires low { neg_ℤ (pos (2 ^ 60)) ≤ℤ ns }
    requires high { ns ≤ℤ pos (2 ^ 60) }
    ensures { OnOk result (to.new ≡ to.old ++ tick_text windows.now ns) }
{
    let x = place_of(windows, ns);
    let mut line = Line::new();
    line.signed(ns);
    put_down(to, b"slot", x, 76, 546)?;
    put_text(to, x, 72, true, Anchor::Middle, line.as_slice())
}

/// How many lines of the axis are before the symbol.
fn before_of(windows: &Windows) -> u64
    ensures value { result ≡ before_of windows.now }
    ensures few { result < 2 ^ 20 }
{
    far_of(windows) / step_of(windows)
}

/// How many are after it.
fn after_of(windows: &Windows) -> u64
    ensures value { result ≡ after_of windows.now }
    ensures few { result < 2 ^ 20 }
{
    near_of(windows) / step_of(windows)
}

/// The time of a line of the axis, of which the earliest has the number 0.
fn time_of(windows: &Windows, k: u64) -> i64
    requires { k < 2 ^ 22 }
    ensures value { result ≡ time_of windows.now k }
    ensures low { neg_ℤ (pos (2 ^ 60)) ≤ℤ result }
    ensures high { result ≤ℤ pos (2 ^ 60) }
{
    let step = step_of(windows);
    let after = k * step;
    let before = before_of(windows) * step;
    after as i64 - before as i64
}

/// Appends the lines of the axis: at each multiple of the step, as far as the picture reaches before and after the symbol.
#[tactic(auto, unfolding(crate::specs::Axis::ticks_text))]
pub(crate) fn put_ticks(to: &mut Bytes, windows: &Windows) -> Result<(), NoMemory>
    ensures { OnOk result (to.new ≡ to.old ++ ticks_text windows.now) }
{
    let count = before_of(windows) + after_of(windows) + 1;
    for k in 0..count {
        put_tick(to, windows, time_of(windows, k))?;
    }
    Ok(())
}
