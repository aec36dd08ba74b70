// Which window a message is tested by.
ghost use Rattle.std.specs.Prelude.{◌≡◌, ◌≤ℤ◌, ◌+ℤ◌};
ghost use Rattle.window_config.specs.Limits.{IsRange, IsTime, IsWindow, IsWithinLimits};
ghost use Rattle.window_config.specs.Windows.{cp_dl_of, data_window_of, command_window_of};

use crate::delays::{Delays, Range};

/// The window of a downlink command: that of downlink data, with both ends earlier by the advance. It serves at the RU, for T2a,
/// and at the DU, for T1a.
pub fn cp_dl(up: Range, advance: i64) -> Range
    requires up { IsRange 0 up }
    requires advance { IsTime advance }
    ensures value { result ≡ cp_dl_of up advance }
    ensures min { result.min ≡ up.min +ℤ advance }
    ensures max { result.max ≡ up.max +ℤ advance }
    ensures order { result.min ≤ℤ result.max }
    ensures window { IsWindow result }
{
    Range {
        min: up.min + advance,
        max: up.max + advance,
    }
}

/// The window in which downlink data reach the RU: T2a of the U-plane.
pub fn data_window(d: &Delays) -> Range
    requires { IsWithinLimits d.now }
    ensures value { result ≡ data_window_of d.now }
    ensures window { IsWindow result }
{
    d.t2a_up
}

/// The window in which commands of one direction, downlink where `down`, reach the RU: T2a of the C-plane.
pub fn command_window(d: &Delays, down: bool) -> Range
    requires { IsWithinLimits d.now }
    ensures value { result ≡ command_window_of d.now down }
    ensures window { IsWindow result }
{
    if down {
        cp_dl(d.t2a_up, d.advance)
    } else {
        d.t2a_cp_ul
    }
}
