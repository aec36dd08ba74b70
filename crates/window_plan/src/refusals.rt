// Which windows do not fit.
ghost use Rattle.std.specs.Prelude.{◌≡◌, ◌≤◌, length};
ghost use Rattle.window_plan.specs.Names.{name_of};

use thiserror::Error;

/// A window that is planned.
#[derive(Clone, Copy, Debug, PartialEq, Eq)]
pub enum Window {
    /// T1a of downlink data.
    Up,
    /// T1a of uplink commands.
    CpUl,
    /// Ta4, in which the DU takes in uplink data.
    Ta4,
    /// How long the RU takes in the fragments of one message.
    HoldDl,
    /// How long the DU takes in the fragments of one message.
    HoldUl,
}

/// A window that nothing within the limits fits, and why, in nanoseconds.
///
/// At T1a the least time (`left`) exceeds the greatest (`right`). Else the greatest time or the hold (`left`) exceeds the limit
/// (`right`).
#[derive(Clone, Copy, Debug, PartialEq, Eq, Error)]
#[error("no window fits: {left} against {right} ns")]
pub struct NoFit {
    pub window: Window,
    pub left: i64,
    pub right: i64,
}

impl Window {
    /// The name under which the window is printed.
    pub fn name(self) -> &'static str
        ensures name { result.now ≡ name_of self }
        ensures short { length result.now ≤ 7 }
    {
        match self {
            Window::Up => "up",
            Window::CpUl => "cp-ul",
            Window::Ta4 => "ta4",
            Window::HoldDl => "hold-dl",
            Window::HoldUl => "hold-ul",
        }
    }
}
