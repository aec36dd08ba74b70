// How far a section is from the two ends of its window.
ghost use Rattle.std.specs.Prelude.{◌≡◌, pos, neg_ℤ, ◌^◌, ◌≤ℤ◌, ◌-ℤ◌};
ghost use Rattle.explain_model.specs.Timings.{whole_ns, opens, closes, timing_by, control_timing, window_at, bare, heading_slot, data_timing};
ghost use Rattle.unit_model.specs.Headings.{IsSoundHeading};
ghost use Rattle.unit_model.specs.Commands.{command_slot, command_start};
ghost use Rattle.unit_model.specs.Blocks.{data_start};
ghost use Rattle.unit_model.specs.Proper.{IsSlot, IsTime};
ghost use Rattle.unit_model.specs.Sound.{IsSoundCommand};
ghost use Rattle.window_config.specs.Limits.{IsWindow, IsWithinLimits};

use air_source::Side;
use explain_model::Timing;
use fh_base::{NANOSECOND, Slot, Ticks, air, of_ns, resolve};
use unit_model::{ControlSection, DataHeading};
use window_config::{Delays, Range, command_window, data_window};

// When a window opens for a symbol that starts then.
fn opens(side: Side, window: Range, start: Ticks) -> Ticks
    requires window { IsWindow window }
    requires low { neg_ℤ (pos (2 ^ 56)) ≤ℤ start.0 }
    requires high { start.0 ≤ℤ pos (2 ^ 56) }
    ensures value { result.0 ≡ opens side window start.0 }
    ensures low { neg_ℤ (pos (2 ^ 57)) ≤ℤ result.0 }
    ensures high { result.0 ≤ℤ pos (2 ^ 57) }
{
    match side {
        Side::Ru => Ticks(start.0 - of_ns(window.max).0),
        Side::Du => Ticks(start.0 + of_ns(window.min).0),
    }
}

// When it closes.
fn closes(side: Side, window: Range, start: Ticks) -> Ticks
    requires window { IsWindow window }
    requires low { neg_ℤ (pos (2 ^ 56)) ≤ℤ start.0 }
    requires high { start.0 ≤ℤ pos (2 ^ 56) }
    ensures value { result.0 ≡ closes side window start.0 }
    ensures low { neg_ℤ (pos (2 ^ 57)) ≤ℤ result.0 }
    ensures high { result.0 ≤ℤ pos (2 ^ 57) }
{
    match side {
        Side::Ru => Ticks(start.0 - of_ns(window.min).0),
        Side::Du => Ticks(start.0 + of_ns(window.max).0),
    }
}

// From one time to another.
fn between(from: Ticks, to: Ticks) -> Ticks
    requires from_low { neg_ℤ (pos (2 ^ 57)) ≤ℤ from.0 }
    requires from_high { from.0 ≤ℤ pos (2 ^ 57) }
    requires to_low { neg_ℤ (pos (2 ^ 57)) ≤ℤ to.0 }
    requires to_high { to.0 ≤ℤ pos (2 ^ 57) }
    ensures { result.0 ≡ to.0 -ℤ from.0 }
{
    Ticks(to.0 - from.0)
}

// Ticks as whole nanoseconds, rounded down.
fn whole_ns(ticks: Ticks) -> i64
    ensures { result ≡ whole_ns ticks.0 }
{
    ticks.0.div_euclid(NANOSECOND as i64)
}

// Of a message whose first and last parts arrived then, for a symbol that starts then.
fn timing_by(side: Side, window: Range, first: Ticks, last: Ticks, start: Ticks) -> Timing
    requires window { IsWindow window }
    requires first { IsTime first.0 }
    requires last { IsTime last.0 }
    requires low { neg_ℤ (pos (2 ^ 56)) ≤ℤ start.0 }
    requires high { start.0 ≤ℤ pos (2 ^ 56) }
    ensures { result ≡ timing_by side window first.0 last.0 start.0 }
{
    let since = between(opens(side, window, start), first);
    let until = between(last, closes(side, window, start));
    Timing {
        since: whole_ns(since),
        until: whole_ns(until),
    }
}

// When the symbol of the header of a command of this slot starts.
fn command_start(section: &ControlSection, slot: Slot) -> Ticks
    requires sound { IsSoundCommand section.now }
    requires named { slot ≡ command_slot section.now }
    requires slot { IsSlot section.now.endpoint.numerology slot }
    ensures value { result.0 ≡ command_start section.now }
    ensures low { neg_ℤ (pos (2 ^ 56)) ≤ℤ result.0 }
    ensures high { result.0 ≤ℤ pos (2 ^ 56) }
{
    air(
        &section.endpoint.numerology,
        slot,
        section.head.start_symbol,
    )
}

/// How far a section of a command of this slot is from the ends of its window, by the symbol of its header.
#[tactic(auto, unfolding(explain_model::specs::Timings::control_timing))]
pub(crate) fn control_timing(delays: &Delays, section: &ControlSection, slot: Slot) -> Timing
    requires limits { IsWithinLimits delays.now }
    requires sound { IsSoundCommand section.now }
    requires named { slot ≡ command_slot section.now }
    requires slot { IsSlot section.now.endpoint.numerology slot }
    ensures { result ≡ control_timing delays.now section.now }
{
    timing_by(
        Side::Ru,
        command_window(delays, section.head.down),
        section.at,
        section.at,
        command_start(section, slot),
    )
}

/// The slot that a section of data names, by the frame nearest to its last arrival.
#[tactic(auto, using(unit_model::proofs::SlotLemmas::slots), unfolding(explain_model::specs::Timings::heading_slot))]
pub(crate) fn heading_slot(heading: &DataHeading) -> Slot
    requires { IsSoundHeading heading.now }
    ensures value { result ≡ heading_slot heading.now }
    ensures slot { IsSlot heading.now.endpoint.numerology result }
{
    Slot {
        frame: resolve(heading.head.frame_id, heading.last),
        subframe: heading.head.subframe,
        slot: heading.head.slot,
    }
}

// The window of data at a unit.
fn window_at(side: Side, delays: &Delays) -> Range
    requires { IsWithinLimits delays.now }
    ensures value { result ≡ window_at side delays.now }
    ensures window { IsWindow result }
{
    match side {
        Side::Ru => data_window(delays),
        Side::Du => delays.ta4,
    }
}

/// How far a section of data of this slot is from the ends of its window, by its own symbol.
#[tactic(auto, unfolding(explain_model::specs::Timings::data_timing, explain_model::specs::Timings::heading_slot))]
pub(crate) fn data_timing(side: Side, delays: &Delays, heading: &DataHeading, slot: Slot) -> Timing
    requires limits { IsWithinLimits delays.now }
    requires sound { IsSoundHeading heading.now }
    requires named { slot ≡ heading_slot heading.now }
    requires slot { IsSlot heading.now.endpoint.numerology slot }
    ensures { result ≡ data_timing side delays.now heading.now }
{
    let start = air(&heading.endpoint.numerology, slot, heading.section.symbol);
    timing_by(
        side,
        window_at(side, delays),
        heading.first,
        heading.last,
        start,
    )
}
