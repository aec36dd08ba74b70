// What a unit reports of the cells in which something is claimed.
ghost use Rattle.std.specs.Prelude.{◌≡◌, pos, neg_ℤ, ◌+ℤ◌, ◌-ℤ◌, ◌^◌, ◌<◌, ◌≤◌, ◌≤ℤ◌, ◌<ℤ◌, ◌++◌, All, IfOk, OnOk, if◌then◌else◌, [], ◌∷◌, filter};
ghost use Rattle.std.specs.List.{flat_map};
ghost use Rattle.unit_model.specs.Claims.{claim_at};
ghost use Rattle.unit_model.specs.Proper.{IsProperAllocation, IsProperData};
ghost use Rattle.unit_model.specs.Radiated.{is_used, used_mask, cell_id, known_of, wait_of, reported, first_clock};
ghost use Rattle.unit_model.specs.Terms.{is_down, IsWithinLimits};
ghost use Rattle.unit_model.specs.Sound.{IsSoundData};
ghost use Rattle.plain_units.specs.ClaimedStarts.{is_claimed_way};
ghost use Rattle.unit_model.specs.Starts.{cell_told, cells_at};

use crate::blocks::block_at;
use crate::claims::claim_at;
use crate::starts::{claimed_starts, is_in};
use air_source::{AirCell, Side};
use fh_base::{FRAME, List, NoMemory, Ticks, of_ns};
use std::alloc::Global;
use unit_model::{Allocation, Cell, Claim, SymbolStart, UserSection, samples_under};
use window_config::{Delays, EndpointConfig};

/// Whether what a unit reports is of the downlink.
fn is_down(side: Side) -> bool
    ensures { result ≡ is_down side }
{
    match side {
        Side::Ru => true,
        Side::Du => false,
    }
}

/// How long after its symbol's start a unit reports a cell.
fn wait_of(side: Side, delays: &Delays) -> Ticks
    requires { IsWithinLimits delays.now }
    ensures value { result.0 ≡ wait_of side delays.now }
    ensures low { pos 0 ≤ℤ result.0 }
    ensures high { result.0 ≤ℤ pos 3072000000 }
{
    match side {
        Side::Ru => Ticks(0),
        Side::Du => of_ns(delays.ta4.max),
    }
}

/// The start that a sweep begins with: a unit's clock begins one frame before 0.
fn sweep_from(wait: Ticks) -> Ticks
    requires low { pos 0 ≤ℤ wait.0 }
    requires high { wait.0 ≤ℤ pos 3072000000 }
    ensures { result.0 ≡ first_clock -ℤ wait.0 }
{
    Ticks(-FRAME - wait.0)
}

/// The start that a sweep ends before: that after the last one whose moment is reached.
fn sweep_end(wait: Ticks, to: Ticks) -> Ticks
    requires low { pos 0 ≤ℤ wait.0 }
    requires high { wait.0 ≤ℤ pos 3072000000 }
    requires to_low { neg_ℤ (pos (2 ^ 53)) ≤ℤ to.0 }
    requires to_high { to.0 ≤ℤ pos (2 ^ 53) }
    ensures { result.0 ≡ (to.0 -ℤ wait.0) +ℤ pos 1 }
{
    Ticks(to.0 - wait.0 + 1)
}

/// 1 where an element is claimed, and not as idle, and 0 where it is not in use.
fn used_bit(claim: Option<Claim>) -> u16
    ensures value { result ≡ (if is_used claim then 1 else 0) }
    ensures small { result ≤ 1 }
{
    match claim {
        None => 0,
        Some(claim) => u16::from(!claim.idle),
    }
}

/// The elements of a cell that are in use, element 0 in the most significant of 12 bits.
fn used_mask(claimed: &[Allocation], cell: &Cell) -> u16
    ensures { result ≡ used_mask (claim_at claimed.now cell.now) }
{
    let mut mask = 0;
    for re in 0..12 {
        mask = 2 * mask + used_bit(claim_at(claimed, cell, re));
    }
    mask
}

/// The section id of a cell: that of its first claim.
fn cell_id(claimed: &[Allocation], cell: &Cell) -> u16
    ensures { result ≡ cell_id (claim_at claimed.now cell.now) }
{
    for re in 0..12 {
        if let Some(claim) = claim_at(claimed, cell, re) {
            return claim.id;
        }
    }
    0
}

/// Appends a cell of a symbol if one of its elements is in use, where these allocations were accepted and these data were received
/// on time, the newest first.
fn push_cell(
    cells: &mut List<AirCell>,
    side: Side,
    m: &SymbolStart,
    prb: u16,
    claimed: &[Allocation],
    timely: &[UserSection],
) -> Result<(), NoMemory>
    requires { All IsSoundData timely.now }
    ensures { OnOk result (cells.new ≡ cells.old ++ cell_told side (known_of claimed.now timely.now) m.now prb) }
{
    let cell = Cell {
        ep: m.ep,
        down: is_down(side),
        slot: m.slot,
        symbol: m.symbol,
        prb,
    };
    let mask = used_mask(claimed, &cell);
    if mask == 0 {
        return Ok(());
    }
    let section = cell_id(claimed, &cell);
    cells.push(AirCell {
        side,
        at: m.start,
        id: m.endpoint.id,
        slot: m.slot,
        symbol: m.symbol,
        prb,
        section,
        mask,
        block: samples_under(section, block_at(timely, &cell)),
    })?;
    Ok(())
}

/// The same for all cells of a symbol, in the order of PRBs.
fn push_cells(
    cells: &mut List<AirCell>,
    side: Side,
    m: &SymbolStart,
    claimed: &[Allocation],
    timely: &[UserSection],
) -> Result<(), NoMemory>
    requires { All IsSoundData timely.now }
    ensures { OnOk result (cells.new ≡ cells.old ++ cells_at side (known_of claimed.now timely.now) m.now) }
{
    for prb in 0..m.endpoint.prbs {
        push_cell(cells, side, m, prb, claimed, timely)?;
    }
    Ok(())
}

/// Appends an allocation if it is in a symbol.
fn push_in(
    found: &mut Vec<Allocation>,
    a: &Allocation,
    down: bool,
    m: &SymbolStart,
) -> Result<(), NoMemory>
    ensures { OnOk result (found.new.items ≡ found.old.items ++ (if is_claimed_way m.now.ep down m.now.slot m.now.symbol a.now then a.now ∷ [] else [])) }
{
    if !is_in(a, m.ep, down, m.slot, m.symbol) {
        return Ok(());
    }
    found.push(*a)?;
    Ok(())
}

/// Those of these that are in a symbol.
fn in_symbol(
    alloc: Global,
    accepted: &[Allocation],
    down: bool,
    m: &SymbolStart,
) -> Result<Vec<Allocation>, NoMemory>
    ensures { IfOk result (λ v. v.items ≡ filter (is_claimed_way m.now.ep down m.now.slot m.now.symbol) accepted.now) }
{
    let mut found = Vec::new(alloc);
    for a in accepted {
        push_in(&mut found, a, down, m)?;
    }
    Ok(found)
}

/// Appends the cells of a symbol. Only the allocations that are in it are asked for claims.
fn push_symbol(
    cells: &mut List<AirCell>,
    alloc: Global,
    side: Side,
    m: &SymbolStart,
    accepted: &[Allocation],
    timely: &[UserSection],
) -> Result<(), NoMemory>
    requires { All IsSoundData timely.now }
    ensures { OnOk result (cells.new ≡ cells.old ++ cells_at side (known_of accepted.now timely.now) m.now) }
{
    let claimed = in_symbol(alloc, accepted, is_down(side), m)?;
    push_cells(cells, side, m, claimed.as_slice(), timely)?;
    Ok(())
}

/// The cells of some symbols, one after the other.
fn cells_of(
    alloc: Global,
    side: Side,
    starts: &[SymbolStart],
    accepted: &[Allocation],
    timely: &[UserSection],
) -> Result<List<AirCell>, NoMemory>
    requires { All IsSoundData timely.now }
    ensures { IfOk result (λ cells. cells ≡ flat_map (cells_at side (known_of accepted.now timely.now)) starts.now) }
{
    let mut cells = List::new(alloc);
    for m in starts {
        push_symbol(&mut cells, alloc, side, m, accepted, timely)?;
    }
    Ok(cells)
}

/// All cells that a unit reports up to a time, that time included, where these allocations were accepted, or planned, and these
/// data were received on time, each with the newest first: in the order of their moments, and at one moment by endpoint, slot, symbol and
/// PRB (this project's profile).
pub(crate) fn reported(
    alloc: Global,
    side: Side,
    delays: &Delays,
    endpoints: &[EndpointConfig],
    accepted: &[Allocation],
    timely: &[UserSection],
    to: Ticks,
) -> Result<List<AirCell>, NoMemory>
    requires delays { IsWithinLimits delays.now }
    requires accepted { All (IsProperAllocation endpoints.now) accepted.now }
    requires timely { All (IsProperData endpoints.now) timely.now }
    requires low { neg_ℤ (pos (2 ^ 53)) ≤ℤ to.0 }
    requires high { to.0 ≤ℤ pos (2 ^ 53) }
    ensures { IfOk result (λ cells. cells ≡ reported side delays.now endpoints.now (known_of accepted.now timely.now) to.0) }
{
    let wait = wait_of(side, delays);
    let from = sweep_from(wait);
    let end = sweep_end(wait, to);
    let starts = claimed_starts(alloc, endpoints, accepted, is_down(side), from, end)?;
    cells_of(alloc, side, starts.as_slice(), accepted, timely)
}
