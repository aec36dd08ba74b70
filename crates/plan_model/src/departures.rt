// When frames leave.
ghost use Rattle.std.specs.Prelude.{◌≡◌, ℕ, pos, neg_ℤ, min, ◌+◌, ◌*◌, ◌≤◌, ◌<◌, ◌^◌, ◌≤ℤ◌, ◌+ℤ◌};
ghost use Rattle.window_config.specs.Limits.{IsRange, IsWithinLimits};
ghost use Rattle.window_config.specs.Windows.{ticks_of_ns};
ghost use Rattle.plan_model.specs.Departures.{sending_from, sending_window, width_of};

use crate::streams::Stream;
use fh_base::{Ticks, of_ns};
use window_config::{Config, Delays, Range, cp_dl};

/// When the frames of a symbol leave, in ticks: the first `from` after the symbol's start, which is below 0 where it leaves
/// before it; each further one `gap` after the one before it, but none later than `spread` after the first.
#[derive(Clone, Copy, Debug, PartialEq, Eq)]
pub struct Departures {
    pub from: Ticks,
    pub gap: u64,
    pub spread: u64,
}

/// The window in which a stream's frames leave, in whole nanoseconds: T1a, or Ta3 for uplink data.
fn sending_window(d: &Delays, stream: Stream) -> Range
    requires { IsWithinLimits d.now }
    ensures value { result ≡ sending_window d.now stream }
    ensures low { pos 0 ≤ℤ result.min }
    ensures order { result.min ≤ℤ result.max }
    ensures high { result.max ≤ℤ pos 4000000 }
{
    match stream {
        Stream::DownCommands => cp_dl(d.t1a_up, d.advance),
        Stream::UpCommands => d.t1a_cp_ul,
        Stream::DownData => d.t1a_up,
        Stream::UpData => d.ta3,
    }
}

/// The time between two ends of a window, in ticks.
fn width_of(r: Range) -> u64
    requires low { pos 0 ≤ℤ r.min }
    requires order { r.min ≤ℤ r.max }
    requires high { r.max ≤ℤ pos 4000000 }
    ensures value { result ≡ width_of r }
    ensures small { result < 2 ^ 33 }
{
    (of_ns(r.max).0 - of_ns(r.min).0) as u64
}

/// So many nanoseconds before a symbol's start, counted from it.
fn before(ns: i64) -> Ticks
    requires low { pos 0 ≤ℤ ns }
    requires high { ns ≤ℤ pos 4000000 }
    ensures value { result.0 ≡ neg_ℤ (ticks_of_ns ns) }
    ensures low { neg_ℤ (pos (2 ^ 33)) ≤ℤ result.0 }
    ensures high { result.0 ≤ℤ pos (2 ^ 33) }
{
    Ticks(-of_ns(ns).0)
}

/// From when on a stream's frames leave, counted from their symbol's start.
fn sending_from(d: &Delays, stream: Stream) -> Ticks
    requires { IsWithinLimits d.now }
    ensures value { result.0 ≡ sending_from d.now stream }
    ensures low { neg_ℤ (pos (2 ^ 33)) ≤ℤ result.0 }
    ensures high { result.0 ≤ℤ pos (2 ^ 33) }
{
    match stream {
        Stream::DownCommands => before(sending_window(d, Stream::DownCommands).max),
        Stream::UpCommands => before(sending_window(d, Stream::UpCommands).max),
        Stream::DownData => before(sending_window(d, Stream::DownData).max),
        Stream::UpData => of_ns(sending_window(d, Stream::UpData).min),
    }
}

impl Departures {
    ghost use Rattle.window_config.specs.Configs.{IsConfig};
    ghost use Rattle.plan_model.specs.Departures.{departure, departures_of};

    /// When the frames of a stream leave (O-RAN.WG4.CUS, delay management: T1a and Ta3; the gap is this project's profile).
    pub fn of(config: &Config, stream: Stream) -> Departures
        requires { IsConfig config.now }
        ensures value { result ≡ departures_of config.now stream }
        ensures low { neg_ℤ (pos (2 ^ 33)) ≤ℤ result.from.0 }
        ensures high { result.from.0 ≤ℤ pos (2 ^ 33) }
        ensures gap { result.gap < 2 ^ 33 }
        ensures spread { result.spread < 2 ^ 33 }
    {
        Departures {
            from: sending_from(&config.delays, stream),
            gap: of_ns(config.gap).0 as u64,
            spread: width_of(sending_window(&config.delays, stream)),
        }
    }

    /// How long after its symbol's first frame a frame leaves that is so many frames after one that leaves `wait` after it.
    pub fn later(&self, wait: u64, frames: usize) -> u64
        requires gap { self.now.gap < 2 ^ 33 }
        requires spread { self.now.spread < 2 ^ 33 }
        requires wait { wait ≤ self.now.spread }
        requires frames { frames < 2 ^ 24 }
        ensures sum { result ≡ min (wait + frames * self.now.gap) self.now.spread }
        ensures value { (i : ℕ) → wait ≡ min (i * self.now.gap) self.now.spread
            → result ≡ min ((i + frames) * self.now.gap) self.now.spread }
        ensures small { result ≤ self.now.spread }
    {
        let next = wait + frames as u64 * self.gap;
        next.min(self.spread)
    }

    /// When a frame leaves whose symbol starts then and which leaves `wait` after the symbol's first.
    pub fn at(&self, start: Ticks, wait: u64) -> Ticks
        requires low { neg_ℤ (pos (2 ^ 56)) ≤ℤ start.0 }
        requires high { start.0 ≤ℤ pos (2 ^ 56) }
        requires from_low { neg_ℤ (pos (2 ^ 33)) ≤ℤ self.now.from.0 }
        requires from_high { self.now.from.0 ≤ℤ pos (2 ^ 33) }
        requires wait { wait < 2 ^ 33 }
        ensures sum { result.0 ≡ (start.0 +ℤ self.now.from.0) +ℤ pos wait }
        ensures value { (i : ℕ) → wait ≡ min (i * self.now.gap) self.now.spread → result.0 ≡ departure self.now start.0 i }
        ensures low { neg_ℤ (pos (2 ^ 57)) ≤ℤ result.0 }
        ensures high { result.0 ≤ℤ pos (2 ^ 57) }
    {
        Ticks(start.0 + self.from.0 + wait as i64)
    }
}
