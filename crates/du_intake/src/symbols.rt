// The symbols of which uplink cells are planned.
ghost use Rattle.std.specs.Prelude.{◌≡◌, ◌+◌, ◌^◌, ◌<◌, ◌≤◌, ◌++◌, IfOk, OnOk, length};
ghost use Rattle.std.specs.List.{list_any};
ghost use Rattle.fh_base.specs.Numbering.{symbols_of};
ghost use Rattle.unit_model.specs.Proper.{IsSlot};
ghost use Rattle.du_intake.specs.Lines.{AreLinesInOrder, has_symbol};
ghost use Rattle.du_intake.specs.Symbols.{AreLines, symbol_if, symbols_in};
ghost use Rattle.du_intake.specs.Listing.{AreAscending, AreInTurn, AreSymbols, IsSlotEnd, IsStableByStart};

use crate::claims::has_symbol;
use crate::lines::{UplinkLine, same_home};
use fh_base::{NoMemory, Slot, Ticks, air, shape};
use std::alloc::Global;
use window_config::EndpointConfig;

/// A symbol of which uplink cells are planned.
#[derive(Clone, Copy, Debug, PartialEq, Eq)]
pub struct PlannedSymbol {
    /// When it starts.
    pub start: Ticks,
    /// The first of the lines of its slot.
    pub first: usize,
    /// The end of the lines of its slot.
    pub last: usize,
    pub symbol: u8,
}

/// Whether one of the lines of a slot names cells of a symbol.
fn is_named(lines: &[UplinkLine], symbol: u8) -> bool
    ensures { result ≡ list_any (has_symbol symbol) lines.now }
{
    lines.iter().any(|line| has_symbol(line, symbol))
}

/// The end of the lines of the slot whose first line is at an index.
fn slot_end(lines: &[UplinkLine], first: usize) -> usize
    requires { first < length lines.now }
    ensures { IsSlotEnd lines.now first result }
{
    for k in first + 1..lines.len() {
        if !same_home(&lines[k], &lines[first]) {
            return k;
        }
    }
    lines.len()
}

/// Appends a symbol of a slot, where one of the slot's lines, from `first` to `last`, names cells of it.
fn put_symbol(
    symbols: &mut Vec<PlannedSymbol>,
    endpoint: &EndpointConfig,
    slot: Slot,
    own: &[UplinkLine],
    first: usize,
    symbol: u8,
) -> Result<(), NoMemory>
    requires slot { IsSlot endpoint.now.numerology slot }
    requires symbol { symbol < symbols_of endpoint.now.numerology }
    requires end { first + length own.now < 2 ^ 64 }
    ensures { OnOk result (symbols.new.items ≡ symbols.old.items ++ symbol_if endpoint.now slot own.now first (first + length own.now) symbol) }
{
    if is_named(own, symbol) {
        symbols.push(PlannedSymbol {
            start: air(&endpoint.numerology, slot, symbol),
            first,
            last: first + own.len(),
            symbol,
        })?;
    }
    Ok(())
}

/// Appends the symbols of a slot of which its lines, from `first` on, name cells.
fn put_slot(
    symbols: &mut Vec<PlannedSymbol>,
    endpoint: &EndpointConfig,
    slot: Slot,
    own: &[UplinkLine],
    first: usize,
) -> Result<(), NoMemory>
    requires slot { IsSlot endpoint.now.numerology slot }
    requires end { first + length own.now < 2 ^ 64 }
    ensures { OnOk result (symbols.new.items ≡ symbols.old.items ++ symbols_in endpoint.now slot own.now first (first + length own.now)) }
{
    for symbol in 0..shape(&endpoint.numerology).symbols {
        put_symbol(symbols, endpoint, slot, own, first, symbol)?;
    }
    Ok(())
}

/// The symbols of which lines name cells, slot by slot.
fn listed(
    alloc: Global,
    endpoints: &[EndpointConfig],
    lines: &[UplinkLine],
) -> Result<Vec<PlannedSymbol>, NoMemory>
    requires few { length endpoints.now ≤ 16 }
    requires lines { AreLines endpoints.now lines.now }
    requires order { AreLinesInOrder lines.now }
    ensures { IfOk result (λ v. AreSymbols endpoints.now lines.now (length lines.now) v.items) }
{
    let mut symbols = Vec::new(alloc);
    let mut first = 0;
    while first < lines.len() {
        let end = slot_end(lines, first);
        let head = lines[first];
        put_slot(
            &mut symbols,
            &endpoints[head.ep],
            head.slot,
            &lines[first..end],
            first,
        )?;
        first = end;
    }
    Ok(symbols)
}

/// Sorts symbols by their starts; those of one start stay in their order.
fn sort_by_start(symbols: &mut Vec<PlannedSymbol>) -> Result<(), NoMemory>
    ensures order { OnOk result (AreAscending symbols.new.items) }
    ensures stable { IsStableByStart symbols.old.items symbols.new.items }
{
    symbols.sort_by_key(|s| s.start.0)?;
    Ok(())
}

/// The symbols of which lines name cells, each once: by their starts, and at one tick by endpoint, slot and symbol.
pub(crate) fn planned_symbols(
    alloc: Global,
    endpoints: &[EndpointConfig],
    lines: &[UplinkLine],
) -> Result<Vec<PlannedSymbol>, NoMemory>
    requires few { length endpoints.now ≤ 16 }
    requires lines { AreLines endpoints.now lines.now }
    requires order { AreLinesInOrder lines.now }
    ensures { IfOk result (λ v. AreInTurn endpoints.now lines.now v.items) }
{
    let mut symbols = listed(alloc, endpoints, lines)?;
    sort_by_start(&mut symbols)?;
    symbols.shrink_to_fit();
    Ok(symbols)
}
