// What the tests need: configurations and lines, and a plan that is asked for its next frame.
ghost use Rattle.std.specs.Prelude.{◌≡◌, ◌<◌, ◌≤◌, ◌+◌, ◌^◌, ◌++◌, ◌∷◌, [], pos, neg_ℤ, ◌≤ℤ◌, All, IfOk, OnOk, length};
ghost use Rattle.bfp_codec.specs.Layout.{HasWidth};
ghost use Rattle.window_config.specs.Configs.{IsConfig};
ghost use Rattle.window_config.specs.Endpoints.{IsEndpoint};
ghost use Rattle.window_config.specs.Limits.{IsTime, IsWithinLimits};
ghost use Rattle.window_config.specs.Plans.{IsPlanLine};
ghost use Rattle.du_scheduler.specs.Plans.{IsPlan};

use air_source::{RePlace, Samples};
use bfp_codec::{Format, Method, Wide};
use du_scheduler::{Plan, PlanRefusal, Plane};
use eaxc_map::Widths;
use fh_base::{List, NoMemory, Numerology, Slot, Ticks};
use std::alloc::Global;
use window_config::{Config, Delays, EndpointConfig, EndpointList, PlanKind, PlanLine};

/// An endpoint of id 0 with 106 PRBs, without compression.
pub(crate) fn endpoint(numerology: Numerology) -> EndpointConfig
    ensures limits { IsEndpoint result }
    ensures id { result.id ≡ 0 }
{
    EndpointConfig {
        id: 0,
        numerology,
        prbs: 106,
        format: Format {
            dynamic: false,
            method: Method::Plain,
        },
    }
}

/// The endpoint with so many PRBs.
pub(crate) fn of_prbs(e: EndpointConfig, prbs: u16) -> EndpointConfig
    requires endpoint { IsEndpoint e }
    requires some { 1 ≤ prbs }
    requires most { prbs ≤ 273 }
    ensures { IsEndpoint result }
{
    EndpointConfig { prbs, ..e }
}

/// The endpoint with this format.
pub(crate) fn of_format(e: EndpointConfig, dynamic: bool, method: Method) -> EndpointConfig
    requires endpoint { IsEndpoint e }
    requires width { HasWidth method }
    ensures { IsEndpoint result }
{
    let format = Format { dynamic, method };
    EndpointConfig { format, ..e }
}

fn listed(e: EndpointConfig) -> EndpointList
    ensures { result ≡ e ∷ [] }
{
    let mut endpoints = EndpointList::new();
    let _room = endpoints.push(e);
    endpoints
}

fn two_listed(a: EndpointConfig, b: EndpointConfig) -> EndpointList
    ensures { result ≡ a ∷ b ∷ [] }
{
    let mut endpoints = listed(a);
    let _room = endpoints.push(b);
    endpoints
}

/// The usual times, with this gap, this size of fragments and so many sections in a message.
pub(crate) fn config(
    e: EndpointConfig,
    widths: Widths,
    gap: i64,
    fragment: usize,
    pack: usize,
) -> Config
    requires endpoint { IsEndpoint e }
    requires gap { IsTime gap }
    requires low { 128 ≤ fragment }
    requires high { fragment ≤ 9000 }
    requires some { 1 ≤ pack }
    requires few { pack ≤ 64 }
    ensures { IsConfig result }
{
    Config {
        widths,
        delays: Delays::usual(),
        gap,
        fragment,
        pack,
        endpoints: listed(e),
    }
}

/// The usual values, with this gap, and two like endpoints of ids 0 and 1.
pub(crate) fn of_two(e: EndpointConfig, widths: Widths, gap: i64) -> Config
    requires endpoint { IsEndpoint e }
    requires id { e.id ≡ 0 }
    requires gap { IsTime gap }
    ensures { IsConfig result }
{
    Config {
        endpoints: two_listed(e, EndpointConfig { id: 1, ..e }),
        ..config(e, widths, gap, 1_492, 1)
    }
}

/// The configuration with these times.
pub(crate) fn with_delays(config: Config, delays: Delays) -> Config
    requires config { IsConfig config }
    requires delays { IsWithinLimits delays }
    ensures { IsConfig result }
{
    Config { delays, ..config }
}

/// A line of some PRBs in one symbol of slot 0 of frame 1, at the endpoint of id 0.
pub(crate) fn line(kind: PlanKind, symbol: u8, prbs: (u16, u8), section: u16) -> PlanLine
    requires symbol { symbol < 2 ^ 6 }
    requires prb { prbs.0 < 2 ^ 10 }
    requires section { section < 2 ^ 12 }
    ensures { IsPlanLine result }
{
    PlanLine {
        kind,
        id: 0,
        slot: Slot {
            frame: 1,
            subframe: 0,
            slot: 0,
        },
        symbol,
        count: 1,
        start_prb: prbs.0,
        num_prb: prbs.1,
        mask: 0xfff,
        section,
        beam: 0,
    }
}

/// The line at the endpoint of this id.
pub(crate) fn at_id(line: PlanLine, id: u16) -> PlanLine
    requires { IsPlanLine line }
    ensures { IsPlanLine result }
{
    PlanLine { id, ..line }
}

/// The line in this frame.
pub(crate) fn in_frame(line: PlanLine, frame: i64) -> PlanLine
    requires line { IsPlanLine line }
    requires low { pos 1 ≤ℤ frame }
    requires high { frame ≤ℤ pos 99999 }
    ensures { IsPlanLine result }
{
    PlanLine {
        slot: Slot { frame, ..line.slot },
        ..line
    }
}

/// The line in slot 0 of this subframe.
pub(crate) fn in_subframe(line: PlanLine, subframe: u8) -> PlanLine
    requires line { IsPlanLine line }
    requires subframe { subframe < 10 }
    ensures { IsPlanLine result }
{
    PlanLine {
        slot: Slot {
            subframe,
            slot: 0,
            ..line.slot
        },
        ..line
    }
}

/// The line in this slot of its subframe.
pub(crate) fn in_slot(line: PlanLine, slot: u8) -> PlanLine
    requires line { IsPlanLine line }
    requires slot { slot < 2 ^ 6 }
    ensures { IsPlanLine result }
{
    PlanLine {
        slot: Slot { slot, ..line.slot },
        ..line
    }
}

/// The line in so many symbols.
pub(crate) fn of_symbols(line: PlanLine, count: u8) -> PlanLine
    requires line { IsPlanLine line }
    requires count { count < 2 ^ 4 }
    ensures { IsPlanLine result }
{
    PlanLine { count, ..line }
}

/// The line with this reMask.
pub(crate) fn with_mask(line: PlanLine, mask: u16) -> PlanLine
    requires line { IsPlanLine line }
    requires mask { mask < 2 ^ 12 }
    ensures { IsPlanLine result }
{
    PlanLine { mask, ..line }
}

/// The line with this beamId.
pub(crate) fn with_beam(line: PlanLine, beam: u16) -> PlanLine
    requires line { IsPlanLine line }
    requires beam { beam < 2 ^ 15 }
    ensures { IsPlanLine result }
{
    PlanLine { beam, ..line }
}

/// Appends a line.
pub(crate) fn put(lines: &mut List<PlanLine>, line: PlanLine) -> Result<(), NoMemory>
    requires lines { All IsPlanLine lines.old }
    requires line { IsPlanLine line }
    ensures { All IsPlanLine lines.new }
{
    lines.push(line)?;
    Ok(())
}

/// The plan of these lines, of which there are few.
pub(crate) fn checked(
    alloc: Global,
    config: &Config,
    lines: &List<PlanLine>,
) -> Result<Plan, PlanRefusal>
    requires config { IsConfig config.now }
    requires lines { All IsPlanLine lines.now }
    ensures { IfOk result IsPlan }
{
    if lines.len() > 65_536 {
        return Err(PlanRefusal::NoMemory);
    }
    Plan::check(alloc, config, lines)
}

/// A frame that is awaited: how long it is, and how it begins.
#[derive(Clone, Copy)]
pub(crate) struct Wanted<'a> {
    at: Ticks,
    plane: Plane,
    ep: usize,
    size: usize,
    head: &'a [u8],
}

/// A command of section type 1, which has 24 bytes, by its first ones or all.
pub(crate) fn command(at: i64, ep: usize, head: &[u8]) -> Wanted<'_> {
    long_command(at, ep, 24, head)
}

/// A command of another type, by its length and its first bytes or all.
pub(crate) fn long_command(at: i64, ep: usize, size: usize, head: &[u8]) -> Wanted<'_> {
    Wanted {
        at: Ticks(at),
        plane: Plane::C,
        ep,
        size,
        head,
    }
}

/// A fragment of a data message, by its length and its first bytes.
pub(crate) fn data(at: i64, ep: usize, size: usize, head: &[u8]) -> Wanted<'_> {
    Wanted {
        at: Ticks(at),
        plane: Plane::U,
        ep,
        size,
        head,
    }
}

/// Whether the plan tells the time of this frame and then gives it, where the source answers (re + 1, -(re + 1)) everywhere.
fn gives(plan: &mut Plan, wanted: Wanted<'_>) -> bool
    requires { IsPlan plan.old }
    ensures { IsPlan plan.new }
{
    let source = Samples::keep(
        |place: RePlace| -> Wide
            requires { place.re < 12 }
            ensures i { result.i ≡ pos (place.re + 1) }
            ensures q { result.q ≡ neg_ℤ (pos (place.re + 1)) }
        {
            Wide {
                i: i32::from(place.re) + 1,
                q: -(i32::from(place.re) + 1),
            }
        },
    );
    if plan.next_time() != Some(wanted.at) {
        return false;
    }
    match plan.next_frame(&source) {
        Some(sent) => {
            sent.at == wanted.at
                && sent.plane == wanted.plane
                && sent.ep == wanted.ep
                && sent.bytes.len() == wanted.size
                && sent.bytes.starts_with(wanted.head)
        }
        None => false,
    }
}

/// Whether the plan has no time and no frame left.
pub(crate) fn is_over(plan: &mut Plan) -> bool
    requires { IsPlan plan.old }
    ensures { IsPlan plan.new }
{
    let source = Samples::keep(
        |_place: RePlace| -> Wide
            ensures { result ≡ record { i = pos 0; q = pos 0 } }
        { Wide { i: 0, q: 0 } },
    );
    plan.next_time().is_none() && plan.next_frame(&source).is_none()
}

/// Whether the plan gives these frames, and no others.
pub(crate) fn all_given(plan: &mut Plan, wanted: &[Wanted<'_>]) -> bool
    requires { IsPlan plan.old }
    ensures { IsPlan plan.new }
{
    for frame in wanted {
        if !gives(plan, *frame) {
            return false;
        }
    }
    is_over(plan)
}
