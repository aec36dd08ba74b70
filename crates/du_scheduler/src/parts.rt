//! The parts of messages: a line in one of its symbols.
ghost use Rattle.std.specs.Prelude.{◌≡◌, ℕ, ◌+◌, ◌<◌, ◌≤◌, ◌++◌, ◌*◌, [], length, map, if◌then◌else◌, IfOk, OnOk};
ghost use Rattle.std.specs.List.{AllByRecursion};
ghost use Rattle.std.specs.List.Sorted.{IsStableBy};
ghost use Rattle.fh_base.specs.Numbering.{symbols_of};
ghost use Rattle.window_config.specs.Endpoints.{IsEndpoint};
ghost use Rattle.window_config.specs.declared.endpoints.EndpointConfig.{EndpointConfig as SpecEndpoint};
ghost use Rattle.unit_model.specs.Proper.{IsSlot};
ghost use Rattle.plan_model.specs.Streams.{part_in, parts_in};
ghost use Rattle.schedule_laws.specs.PlacedLines.{ArePlaced, HasEndpoint};
ghost use Rattle.du_scheduler.specs.Keys.{key_of};
ghost use Rattle.fh_base.specs.Ordered.{AreOrderedBy};
ghost use Rattle.du_scheduler.specs.Parts.{IsTimed, is_sent, is_up_data, line_parts, listed, part_first, part_symbols, timed};

use fh_base::{NoMemory, Ticks, air};
use plan_model::{PlannedLine, Stream, line_allocation, section_size};
use std::alloc::Global;
use unit_model::is_uplink;

/// What parts are sorted by: the start of their symbol, slot and symbol, and in an uplink symbol the order of the radio unit.
#[derive(Clone, Copy, Debug, PartialEq, Eq, PartialOrd, Ord)]
struct PartKey {
    start: i64,
    frame: i64,
    subframe: u8,
    slot: u8,
    symbol: u8,
    start_prb: u16,
    num_prb: u8,
    section: u16,
}

/// A line in one of its symbols: when that starts, what orders it, the bytes of its section, and the line's place in the plan. The
/// last three of what orders it are 0 but for uplink data.
#[derive(Clone, Copy, Debug, PartialEq, Eq)]
pub struct TimedPart {
    /// When the symbol starts.
    pub start: Ticks,
    pub frame: i64,
    pub subframe: u8,
    pub slot: u8,
    pub symbol: u8,
    pub start_prb: u16,
    pub num_prb: u8,
    pub section: u16,
    /// The bytes of the line's U-plane section, with its headers.
    pub size: u16,
    /// The line's place in the plan, from 0.
    pub line: usize,
}

/// What a part is sorted by.
fn part_key(p: &TimedPart) -> PartKey
    ensures { result ≡ key_of p.now }
{
    PartKey {
        start: p.start.0,
        frame: p.frame,
        subframe: p.subframe,
        slot: p.slot,
        symbol: p.symbol,
        start_prb: p.start_prb,
        num_prb: p.num_prb,
        section: p.section,
    }
}

/// Whether more than the order of lines decides that of parts in a symbol.
fn is_up_data(stream: Stream) -> bool
    ensures { result ≡ is_up_data stream }
{
    match stream {
        Stream::DownCommands | Stream::UpCommands | Stream::DownData => false,
        Stream::UpData => true,
    }
}

/// A line in one of its symbols.
fn timed(stream: Stream, p: &PlannedLine, symbol: u8) -> TimedPart
    requires endpoint { IsEndpoint p.now.endpoint }
    requires slot { IsSlot p.now.endpoint.numerology p.now.line.slot }
    requires symbol { symbol < symbols_of p.now.endpoint.numerology }
    ensures { result ≡ timed stream (part_in symbol p.now) }
{
    let up_data = is_up_data(stream);
    TimedPart {
        start: air(&p.endpoint.numerology, p.line.slot, symbol),
        frame: p.line.slot.frame,
        subframe: p.line.slot.subframe,
        slot: p.line.slot.slot,
        symbol,
        start_prb: if up_data { p.line.start_prb } else { 0 },
        num_prb: if up_data { p.line.num_prb } else { 0 },
        section: if up_data { p.line.section } else { 0 },
        size: section_size(&p.endpoint, p.line.num_prb) as u16,
        line: p.index,
    }
}

/// Whether a line has messages of this stream at this endpoint.
fn is_sent(stream: Stream, ep: usize, p: &PlannedLine) -> bool
    ensures { result ≡ is_sent stream ep p.now }
{
    let named = line_allocation(p);
    let is_named = match stream {
        Stream::DownCommands => named.down,
        Stream::UpCommands => !named.down,
        Stream::DownData => named.down && !named.idle,
        Stream::UpData => is_uplink(&named),
    };
    is_named && p.ep == ep
}

/// In how many symbols a line has a part of this stream, from its first one on: a command has one part.
fn symbols_in(stream: Stream, p: &PlannedLine) -> u8
    ensures { result ≡ part_symbols stream p.now }
{
    match stream {
        Stream::DownCommands | Stream::UpCommands => 1,
        Stream::DownData | Stream::UpData => p.line.count,
    }
}

/// Appends the parts of a line.
fn put_line(parts: &mut Vec<TimedPart>, stream: Stream, p: &PlannedLine) -> Result<(), NoMemory>
    requires endpoint { IsEndpoint p.now.endpoint }
    requires slot { IsSlot p.now.endpoint.numerology p.now.line.slot }
    requires symbols { p.now.line.symbol + part_symbols stream p.now ≤ symbols_of p.now.endpoint.numerology }
    ensures { OnOk result (parts.new.items ≡ parts.old.items ++ map (timed stream) (line_parts stream p.now)) }
{
    for k in 0..symbols_in(stream, p) {
        parts.push(timed(stream, p, p.line.symbol + k))?;
    }
    Ok(())
}

/// Appends the parts of a line, where it has messages of this stream at this endpoint.
fn put_sent(
    parts: &mut Vec<TimedPart>,
    stream: Stream,
    ep: usize,
    p: &PlannedLine,
) -> Result<(), NoMemory>
    requires endpoint { IsEndpoint p.now.endpoint }
    requires slot { IsSlot p.now.endpoint.numerology p.now.line.slot }
    requires symbols { p.now.line.symbol + part_symbols stream p.now ≤ symbols_of p.now.endpoint.numerology }
    ensures { OnOk result (parts.new.items ≡ parts.old.items ++ map (timed stream) (if is_sent stream ep p.now then line_parts stream p.now else [])) }
{
    if !is_sent(stream, ep, p) {
        return Ok(());
    }
    put_line(parts, stream, p)
}

/// How many parts an endpoint's stream has.
fn count_of(stream: Stream, ep: usize, lines: &[PlannedLine]) -> usize {
    let mut count: usize = 0;
    for line in lines {
        if is_sent(stream, ep, line) {
            count = count.saturating_add(symbols_in(stream, line) as usize);
        }
    }
    count
}

/// The parts of an endpoint's stream, line by line.
fn listed(
    alloc: Global,
    stream: Stream,
    ep: usize,
    lines: &[PlannedLine],
) -> Result<Vec<TimedPart>, NoMemory>
    requires { ArePlaced lines.now }
    ensures { IfOk result (λ v. v.items ≡ map (timed stream) (listed stream ep lines.now)) }
{
    let mut parts = Vec::with_capacity(alloc, count_of(stream, ep, lines))?;
    for line in lines {
        put_sent(&mut parts, stream, ep, line)?;
    }
    Ok(parts)
}

/// Sorts parts by their keys; those of one key stay in their order.
fn sort_parts(parts: &mut Vec<TimedPart>) -> Result<(), NoMemory>
    ensures order { OnOk result (AreOrderedBy part_first parts.new.items) }
    ensures len { OnOk result (length parts.new.items ≡ length parts.old.items) }
    ensures stable { IsStableBy part_first parts.old.items parts.new.items }
{
    parts.sort_by_key(part_key)?;
    Ok(())
}

/// The parts of an endpoint's stream, in their order: a command in its first symbol, data in each (this project's profile; the
/// fields are those of O-RAN.WG4.CUS).
///
/// `NoMemory` where memory cannot be had.
pub fn parts_of(
    alloc: Global,
    stream: Stream,
    ep: usize,
    lines: &[PlannedLine],
) -> Result<Vec<TimedPart>, NoMemory>
    requires { ArePlaced lines.now }
    ensures value { IfOk result (λ v. (e : SpecEndpoint) → HasEndpoint lines.now ep e → v.items ≡ map (timed stream) (parts_in lines.now stream ep e)) }
    ensures times { IfOk result (λ v. AllByRecursion IsTimed v.items) }
    ensures lines { IfOk result (λ v. (most : ℕ) → AllByRecursion (λ p. p.index < most) lines.now → AllByRecursion (λ x. x.line < most) v.items) }
    ensures few { IfOk result (λ v. length v.items ≤ 15 * length lines.now) }
{
    let mut parts = listed(alloc, stream, ep, lines)?;
    sort_parts(&mut parts)?;
    Ok(parts)
}
