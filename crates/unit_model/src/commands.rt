// What the verdict on a section of a command asks first.
ghost use Rattle.std.specs.Prelude.{◌≡◌};
ghost use Rattle.window_config.specs.Limits.{IsWithinLimits};
ghost use Rattle.unit_model.specs.Commands.{has_no_offsets, has_offsets, is_for, command_class, is_uplink};
ghost use Rattle.unit_model.specs.Sound.{IsSoundCommand};

use crate::allocations::Allocation;
use crate::decoded::ControlSection;
use crate::slots::command_start;
use cplane_sections::CBody;
use fh_base::{Numerology, code, offsets};
use window_config::{Class, Delays, class, command_window};

/// Whether an endpoint has no offsets: it is an ordinary or an extended one.
fn has_no_offsets(offsets: Option<(u16, u16)>) -> bool
    ensures { result ≡ has_no_offsets offsets }
{
    match offsets {
        None => true,
        Some(_) => false,
    }
}

/// Whether an endpoint's offsets are these, timeOffset and cpLength.
fn has_offsets(time_offset: u16, cp_length: u16, offsets: Option<(u16, u16)>) -> bool
    ensures { result ≡ has_offsets time_offset cp_length offsets }
{
    match offsets {
        None => false,
        Some((time, cp)) => time_offset == time && cp_length == cp,
    }
}

/// Whether a C-plane header is one for an endpoint of this numerology: section type 0 for any, type 1 for an ordinary or an
/// extended one, type 3 for an offset one with its timeOffset, cpLength and spacing (this project's profile).
pub fn is_for(body: &CBody, n: &Numerology) -> bool
    ensures { result ≡ is_for body.now n.now }
{
    match *body {
        CBody::Idle { .. } => true,
        CBody::Normal { .. } => has_no_offsets(offsets(n)),
        CBody::Offset {
            time_offset,
            structure,
            cp_length,
            ..
        } => has_offsets(time_offset, cp_length, offsets(n)) && structure % 16 == code(n),
    }
}

/// Whether a command is on time, by the symbol of its header (O-RAN.WG4.CUS, delay management).
pub fn command_class(delays: &Delays, c: &ControlSection) -> Class
    requires limits { IsWithinLimits delays.now }
    requires sound { IsSoundCommand c.now }
    ensures { result ≡ command_class delays.now c.now }
{
    class(
        c.at,
        c.at,
        command_start(c),
        command_window(delays, c.head.down),
    )
}

/// Whether the radio unit sends data for an allocation: an uplink section of type 1 or 3.
pub fn is_uplink(a: &Allocation) -> bool
    ensures { result ≡ is_uplink a.now }
{
    !a.down && !a.idle
}
