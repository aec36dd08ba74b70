// The symbols in which something is claimed, in the order of a sweep.
ghost use Rattle.std.specs.Prelude.{◌≡◌, pos, neg_ℤ, ◌+ℤ◌, ◌+◌, ◌^◌, ◌<◌, ◌≤◌, ◌≤ℤ◌, ◌<ℤ◌, ◌++◌, All, IfOk, OnOk, length};
ghost use Rattle.fh_base.specs.Numbering.{slots_of, symbols_of};
ghost use Rattle.unit_model.specs.Proper.{IsProperAllocation, IsSlot};
ghost use Rattle.plain_units.specs.ClaimedStarts.{is_claimed_way, is_claimed_in, is_of_frame, names_frame, claimed_start};
ghost use Rattle.unit_model.specs.Starts.{start_at};
ghost use Rattle.unit_model.specs.Sweeps.{slot_at, first_swept, of_symbol, of_slot, of_subframe, of_frame, of_endpoint, at_tick, sweep};

use crate::claims::same_way;
use crate::moments::next_before;
use fh_base::{FRAME, NoMemory, Slot, Ticks, air, shape};
use std::alloc::Global;
use unit_model::{Allocation, SymbolStart, is_from, same_slot};
use window_config::EndpointConfig;

/// How many frames a sweep goes over at each tick: that of the tick and those before it.
const FRAMES: u8 = 6;

/// Whether an allocation of this direction, downlink where `down`, is in a symbol.
pub(crate) fn is_in(a: &Allocation, ep: usize, down: bool, slot: Slot, symbol: u8) -> bool
    ensures { result ≡ is_claimed_way ep down slot symbol a.now }
{
    a.ep == ep
        && same_way(a.down, down)
        && same_slot(&a.slot, &slot)
        && is_from(
            u16::from(a.symbol),
            u16::from(a.num_symbol),
            u16::from(symbol),
        )
}

/// Whether one of these does.
fn is_claimed_in(accepted: &[Allocation], ep: usize, down: bool, slot: Slot, symbol: u8) -> bool
    ensures { result ≡ is_claimed_in accepted.now ep down slot symbol }
{
    for a in accepted {
        if is_in(a, ep, down, slot, symbol) {
            return true;
        }
    }
    false
}

/// Whether an allocation is of an endpoint and of a slot's frame.
fn is_of_frame(a: &Allocation, ep: usize, slot: Slot) -> bool
    ensures { result ≡ is_of_frame ep slot.frame a.now }
{
    a.ep == ep && a.slot.frame == slot.frame
}

/// Whether one of these is.
fn names_frame(accepted: &[Allocation], ep: usize, slot: Slot) -> bool
    ensures { result ≡ names_frame accepted.now ep slot.frame }
{
    for a in accepted {
        if is_of_frame(a, ep, slot) {
            return true;
        }
    }
    false
}

/// The first slot of one of the frames that a sweep goes over at a tick.
fn frame_at(s: Ticks, k: u8) -> Slot
    requires low { neg_ℤ (pos (2 ^ 53)) ≤ℤ s.0 }
    requires high { s.0 ≤ℤ pos (2 ^ 53) }
    requires few { k < 6 }
    ensures value { result ≡ slot_at (first_swept s.0 +ℤ pos k) 0 0 }
    ensures low { neg_ℤ (pos 1000000) ≤ℤ result.frame }
    ensures high { result.frame ≤ℤ pos 1000000 }
{
    Slot {
        frame: s.0.div_euclid(FRAME) - 5 + i64::from(k),
        subframe: 0,
        slot: 0,
    }
}

/// The first slot of a subframe of a slot's frame.
fn subframe_at(slot: Slot, subframe: u8) -> Slot
    ensures { result ≡ slot_at slot.frame subframe 0 }
{
    Slot {
        subframe,
        slot: 0,
        ..slot
    }
}

/// A slot of a slot's subframe.
fn slot_at(first: Slot, slot: u8) -> Slot
    ensures { result ≡ slot_at first.frame first.subframe slot }
{
    Slot { slot, ..first }
}

/// What is looked for: the symbols of an endpoint that start at a tick, and in which one of these claims something in one direction.
#[derive(Clone, Copy)]
struct Sought<'a> {
    accepted: &'a [Allocation],
    /// Whether it is the downlink.
    down: bool,
    /// The endpoint's index.
    ep: usize,
    endpoint: &'a EndpointConfig,
    start: Ticks,
}

/// Appends a symbol if it is looked for.
fn push_symbol(
    found: &mut Vec<SymbolStart>,
    sought: &Sought<'_>,
    slot: Slot,
    symbol: u8,
) -> Result<(), NoMemory>
    requires slot { IsSlot sought.now.endpoint.now.numerology slot }
    requires symbol { symbol < symbols_of sought.now.endpoint.now.numerology }
    ensures { OnOk result (found.new.items ≡ found.old.items ++ of_symbol (claimed_start sought.now.accepted.now sought.now.down sought.now.ep sought.now.endpoint.now) sought.now.endpoint.now sought.now.start.0 slot symbol) }
{
    let start = air(&sought.endpoint.numerology, slot, symbol);
    if start.0 != sought.start.0 {
        return Ok(());
    }
    if !is_claimed_in(sought.accepted, sought.ep, sought.down, slot, symbol) {
        return Ok(());
    }
    found.push(SymbolStart {
        ep: sought.ep,
        endpoint: *sought.endpoint,
        start,
        slot,
        symbol,
    })?;
    Ok(())
}

/// The same for the symbols of a slot.
fn push_slot(found: &mut Vec<SymbolStart>, sought: &Sought<'_>, slot: Slot) -> Result<(), NoMemory>
    requires { IsSlot sought.now.endpoint.now.numerology slot }
    ensures { OnOk result (found.new.items ≡ found.old.items ++ of_slot (claimed_start sought.now.accepted.now sought.now.down sought.now.ep sought.now.endpoint.now) sought.now.endpoint.now sought.now.start.0 slot) }
{
    let shape = shape(&sought.endpoint.numerology);
    for symbol in 0..shape.symbols {
        push_symbol(found, sought, slot, symbol)?;
    }
    Ok(())
}

/// The same for the slots of a subframe, whose first slot is given.
fn push_subframe(
    found: &mut Vec<SymbolStart>,
    sought: &Sought<'_>,
    first: Slot,
) -> Result<(), NoMemory>
    requires low { neg_ℤ (pos 1000000) ≤ℤ first.frame }
    requires high { first.frame ≤ℤ pos 1000000 }
    requires subframe { first.subframe < 10 }
    ensures { OnOk result (found.new.items ≡ found.old.items ++ of_subframe (claimed_start sought.now.accepted.now sought.now.down sought.now.ep sought.now.endpoint.now) sought.now.endpoint.now sought.now.start.0 first.frame first.subframe) }
{
    let shape = shape(&sought.endpoint.numerology);
    for slot in 0..shape.slots {
        push_slot(found, sought, slot_at(first, slot))?;
    }
    Ok(())
}

/// The same for the subframes of a frame, whose first slot is given.
fn push_frame(
    found: &mut Vec<SymbolStart>,
    sought: &Sought<'_>,
    first: Slot,
) -> Result<(), NoMemory>
    requires low { neg_ℤ (pos 1000000) ≤ℤ first.frame }
    requires high { first.frame ≤ℤ pos 1000000 }
    ensures { OnOk result (found.new.items ≡ found.old.items ++ of_frame (claimed_start sought.now.accepted.now sought.now.down sought.now.ep sought.now.endpoint.now) sought.now.endpoint.now sought.now.start.0 first.frame) }
{
    for subframe in 0..10 {
        push_subframe(found, sought, subframe_at(first, subframe))?;
    }
    Ok(())
}

/// The same for a frame, which is passed over if no allocation is of it.
fn push_named_frame(
    found: &mut Vec<SymbolStart>,
    sought: &Sought<'_>,
    first: Slot,
) -> Result<(), NoMemory>
    requires low { neg_ℤ (pos 1000000) ≤ℤ first.frame }
    requires high { first.frame ≤ℤ pos 1000000 }
    ensures { OnOk result (found.new.items ≡ found.old.items ++ of_frame (claimed_start sought.now.accepted.now sought.now.down sought.now.ep sought.now.endpoint.now) sought.now.endpoint.now sought.now.start.0 first.frame) }
{
    if !names_frame(sought.accepted, sought.ep, first) {
        return Ok(());
    }
    push_frame(found, sought, first)
}

/// The same for all symbols of an endpoint.
fn push_endpoint(found: &mut Vec<SymbolStart>, sought: &Sought<'_>) -> Result<(), NoMemory>
    requires low { neg_ℤ (pos (2 ^ 53)) ≤ℤ sought.now.start.0 }
    requires high { sought.now.start.0 ≤ℤ pos (2 ^ 53) }
    ensures { OnOk result (found.new.items ≡ found.old.items ++ of_endpoint (claimed_start sought.now.accepted.now sought.now.down sought.now.ep sought.now.endpoint.now) sought.now.endpoint.now sought.now.start.0) }
{
    for k in 0..FRAMES {
        push_named_frame(found, sought, frame_at(sought.start, k))?;
    }
    Ok(())
}

/// The same for all endpoints.
fn push_tick(
    found: &mut Vec<SymbolStart>,
    endpoints: &[EndpointConfig],
    accepted: &[Allocation],
    down: bool,
    s: Ticks,
) -> Result<(), NoMemory>
    requires low { neg_ℤ (pos (2 ^ 53)) ≤ℤ s.0 }
    requires high { s.0 ≤ℤ pos (2 ^ 53) }
    ensures { OnOk result (found.new.items ≡ found.old.items ++ at_tick (claimed_start accepted.now down) endpoints.now s.0) }
{
    for ep in 0..endpoints.len() {
        let sought = Sought {
            accepted,
            down,
            ep,
            endpoint: &endpoints[ep],
            start: s,
        };
        push_endpoint(found, &sought)?;
    }
    Ok(())
}

/// The symbols in which one of these claims something in one direction, downlink where `down`, and that start from one tick on
/// and before another, in the order of ticks, endpoints, slots and symbols. It goes from one start of a claimed symbol to the
/// next.
pub(crate) fn claimed_starts(
    alloc: Global,
    endpoints: &[EndpointConfig],
    accepted: &[Allocation],
    down: bool,
    from: Ticks,
    end: Ticks,
) -> Result<Vec<SymbolStart>, NoMemory>
    requires proper { All (IsProperAllocation endpoints.now) accepted.now }
    requires low { neg_ℤ (pos (2 ^ 53)) ≤ℤ from.0 }
    requires high { end.0 ≤ℤ (pos (2 ^ 53) +ℤ pos 1) }
    ensures { IfOk result (λ v. v.items ≡ sweep (claimed_start accepted.now down) endpoints.now from.0 end.0) }
{
    let mut found = Vec::new(alloc);
    let mut now = from;
    while let Some(start) = next_before(accepted, down, now, end) {
        push_tick(&mut found, endpoints, accepted, down, start)?;
        now = Ticks(start.0 + 1);
    }
    Ok(found)
}
