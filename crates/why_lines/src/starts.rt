// The symbols of a unit that have a section on time.
ghost use Rattle.std.specs.Prelude.{◌≡◌, OnOk, IfOk, None};
ghost use Rattle.std.specs.List.{AllByRecursion, list_all};
ghost use Rattle.fh_base.specs.Lists.{in_order};
ghost use Rattle.unit_model.specs.Order.{comes_before};
ghost use Rattle.explain_model.specs.Unused.{is_giver, same_start, start_of, symbols_given};
ghost use Rattle.explain_model.specs.Keys.{data_key};
ghost use Rattle.explain_records.specs.Order.{AreInOrder};
ghost use Rattle.why_lines.specs.Starts.{IsGivenRecord, fresh_starts, is_proper, last_start, listed, same_as, start_in, start_key, with_starts};

use air_source::Side;
use explain_model::DataRecord;
use fh_base::{NoMemory, air, shape};
use std::alloc::Global;
use unit_model::{SymbolStart, same_slot};
use window_config::{Class, EndpointConfig};

/// What symbols are sorted by: by their starts, and at one tick by endpoint, slot and symbol.
#[derive(Clone, Copy, Debug, PartialEq, Eq, PartialOrd, Ord)]
pub(crate) struct StartKey {
    start: i64,
    ep: usize,
    frame: i64,
    subframe: u8,
    slot: u8,
    symbol: u8,
}

/// A symbol in the order of symbols.
fn start_key(s: &SymbolStart) -> StartKey
    ensures { result ≡ start_key s.now }
{
    StartKey {
        start: s.start.0,
        ep: s.ep,
        frame: s.slot.frame,
        subframe: s.slot.subframe,
        slot: s.slot.slot,
        symbol: s.symbol,
    }
}

/// Whether a section is on time, and one of a unit.
fn is_giver(side: Side, r: &DataRecord) -> bool
    ensures { result ≡ is_giver side r.now }
{
    r.side == side
        && match r.class {
            Class::OnTime => true,
            Class::Late | Class::Early => false,
        }
}

/// Whether two symbols are the same.
fn same_start(a: &SymbolStart, b: &SymbolStart) -> bool
    ensures { result ≡ same_start a.now b.now }
{
    a.ep == b.ep && same_slot(&a.slot, &b.slot) && a.symbol == b.symbol
}

/// Whether a section names a slot and a symbol of its endpoint, in a frame whose symbols' times can be told; or there is no such
/// endpoint.
fn is_proper(endpoints: &[EndpointConfig], r: &DataRecord) -> bool
    ensures { result ≡ is_proper endpoints.now r.now }
{
    match endpoints.get(r.ep) {
        Some(endpoint) => {
            let shape = shape(&endpoint.numerology);
            -1_000_000 <= r.slot.frame
                && r.slot.frame <= 1_000_000
                && r.slot.subframe < 10
                && r.slot.slot < shape.slots
                && r.symbol < shape.symbols
        }
        None => true,
    }
}

/// Whether all sections are proper.
fn are_proper(endpoints: &[EndpointConfig], given: &[DataRecord]) -> bool
    ensures { result ≡ list_all (is_proper endpoints.now) given.now }
{
    for r in given {
        if !is_proper(endpoints, r) {
            return false;
        }
    }
    true
}

/// The symbol of a section, and when it starts, if there is such an endpoint.
fn start_of(endpoints: &[EndpointConfig], r: &DataRecord) -> Option<SymbolStart>
    requires { IsGivenRecord endpoints.now r.now }
    ensures { start_of endpoints.now r.now ≡ listed result }
{
    match endpoints.get(r.ep) {
        Some(endpoint) => Some(SymbolStart {
            ep: r.ep,
            endpoint: *endpoint,
            start: air(&endpoint.numerology, r.slot, r.symbol),
            slot: r.slot,
            symbol: r.symbol,
        }),
        None => None,
    }
}

/// Whether a symbol is the last of some.
fn is_last(found: &[SymbolStart], start: &SymbolStart) -> bool
    ensures { result ≡ same_as (last_start found.now) start.now }
{
    match found.last() {
        Some(last) => same_start(last, start),
        None => false,
    }
}

/// Adds a symbol, where it is not the last.
fn add_start(found: &mut Vec<SymbolStart>, start: Option<SymbolStart>) -> Result<(), NoMemory>
    ensures { OnOk result (found.new.items ≡ with_starts found.old.items (listed start)) }
{
    match start {
        Some(start) => {
            if !is_last(found.as_slice(), &start) {
                found.push(start)?;
            }
            Ok(())
        }
        None => Ok(()),
    }
}

/// The symbol of a section on time of a unit.
fn start_in(endpoints: &[EndpointConfig], side: Side, r: &DataRecord) -> Option<SymbolStart>
    requires { IsGivenRecord endpoints.now r.now }
    ensures { start_in endpoints.now side r.now ≡ listed result }
{
    if is_giver(side, r) {
        start_of(endpoints, r)
    } else {
        None
    }
}

/// The symbols of the sections on time of a unit, in their order, each once where those of one symbol are together.
fn starts_once(
    alloc: Global,
    endpoints: &[EndpointConfig],
    side: Side,
    given: &[DataRecord],
) -> Result<Vec<SymbolStart>, NoMemory>
    requires proper { AllByRecursion (IsGivenRecord endpoints.now) given.now }
    ensures { IfOk result (λ found. found.items ≡ fresh_starts endpoints.now side given.now) }
{
    let mut found = Vec::new(alloc);
    for r in given {
        add_start(&mut found, start_in(endpoints, side, r))?;
    }
    Ok(found)
}

/// Sorts symbols by their starts, and at one tick by endpoint, slot and symbol.
fn sort_by_start(found: &mut Vec<SymbolStart>) -> Result<(), NoMemory>
    ensures { OnOk result (found.new.items ≡ in_order comes_before found.old.items) }
{
    found.sort_by_key(start_key)?;
    Ok(())
}

/// The symbols of the sections on time of a unit, each once: by their starts, and at one tick by endpoint, slot and symbol. `NoMemory`
/// too where a section is not proper.
#[tactic(auto, using(crate::proofs::ProperLemmas::all_proper))]
pub(crate) fn symbols_given(
    alloc: Global,
    endpoints: &[EndpointConfig],
    side: Side,
    given: &[DataRecord],
) -> Result<Vec<SymbolStart>, NoMemory>
    requires { AreInOrder data_key given.now }
    ensures { IfOk result (λ found. found.items ≡ symbols_given endpoints.now side given.now) }
{
    if !are_proper(endpoints, given) {
        return Err(NoMemory);
    }
    let mut found = starts_once(alloc, endpoints, side, given)?;
    sort_by_start(&mut found)?;
    Ok(found)
}
