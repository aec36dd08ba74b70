// The first symbol that fits.
ghost use Rattle.std.specs.Prelude.{◌≡◌, ◌+◌, ◌<◌, ◌≤◌, Bool, Some, length};
ghost use Rattle.unit_cells.specs.Cells.{CellsValue, endpoints_of, ring_of};
ghost use Rattle.unit_model.specs.declared.symbol_start.SymbolStart.{SymbolStart as SpecStart};
ghost use Rattle.unit_symbols.specs.Places.{IsPlace};
ghost use Rattle.unit_symbols.specs.Searches.{InPlace, IsLead, Searched, is_earlier, is_passed};
ghost use Rattle.unit_symbols.specs.Symbols.{FitsFrom, InSlot, IsFirst, OfEndpoint};

use crate::{SlotPlace, SymbolTest};
use fh_base::{Ticks, shape};
use slot_rings::SlotRing;
use unit_cells::UnitCells;
use unit_model::{SymbolStart, comes_before};

/// Whether a symbol is before what was found, or nothing was.
fn is_earlier(m: &SymbolStart, found: &Option<SymbolStart>) -> bool
    ensures { result ≡ is_earlier m.now found.now }
{
    match found {
        None => true,
        Some(first) => comes_before(m, first),
    }
}

/// Whether no symbol of an endpoint that starts at this tick or later is before what was found.
fn is_passed(found: &Option<SymbolStart>, ep: usize, start: Ticks) -> bool
    ensures { result ≡ is_passed found.now ep start.0 }
{
    match found {
        None => false,
        Some(first) => first.start.0 < start.0 || first.start.0 == start.0 && first.ep < ep,
    }
}

/// The first of the best symbol so far and those of a slot that fit. After the first one of the slot, or one that is after the
/// best, none is looked at, since symbols start one after the other.
fn first_in_slot<'c, T: SymbolTest<'c>>(
    cells: &'c UnitCells,
    test: &T,
    place: &SlotPlace<'c>,
    best: Option<SymbolStart>,
) -> Option<SymbolStart>
    requires { IsPlace cells.now place.now }
    ensures { Searched cells.now (T.fits test.now cells.now) (InSlot place.now.ep place.now.slot) best result }
{
    let Some(lookup) = test.look_up(cells, place) else {
        return best;
    };
    for symbol in 0..shape(&place.ring.endpoint().numerology).symbols {
        if test.may_fit(cells, place, symbol) {
            let m = place.start(symbol);
            if !is_earlier(&m, &best) {
                return best;
            }
            if test.does_fit(cells, place, lookup, &m) {
                return Some(m);
            }
        }
    }
    best
}

/// Makes the best symbol so far the first of it and those that fit of the slot that has the place with an index.
fn first_in_place<'c, T: SymbolTest<'c>>(
    cells: &'c UnitCells,
    test: &T,
    ep: usize,
    ring: &'c SlotRing,
    index: usize,
    best: &mut Option<SymbolStart>,
)
    requires ring { ring_of cells.now ep ≡ Some ring.now }
    requires index { index < length ring.now.places }
    ensures { Searched cells.now (T.fits test.now cells.now) (InPlace cells.now ep index) best.old best.new }
{
    let Some(start) = test.earliest_at(cells, ep, index) else {
        return;
    };
    if is_passed(best, ep, start) {
        return;
    }
    if let Some(slot) = ring.slot_at(index) {
        let place = SlotPlace {
            ep,
            ring,
            index,
            slot,
        };
        *best = first_in_slot(cells, test, &place, *best);
    }
}

/// Makes the best symbol so far the first of it and those of an endpoint that fit, by a look at each of its places.
fn first_in_places<'c, T: SymbolTest<'c>>(
    cells: &'c UnitCells,
    test: &T,
    ep: usize,
    best: &mut Option<SymbolStart>,
)
    requires { ep < length (endpoints_of cells.now) }
    ensures { Searched cells.now (T.fits test.now cells.now) (OfEndpoint ep) best.old best.new }
{
    let ring = cells.ring(ep);
    for index in 0..ring.place_count() {
        first_in_place(cells, test, ep, ring, index, best);
    }
}

/// The same, by a look at no place where none of the endpoint's symbols is before the best one.
fn first_in_ring<'c, T: SymbolTest<'c>>(
    cells: &'c UnitCells,
    test: &T,
    ep: usize,
    best: &mut Option<SymbolStart>,
)
    requires { ep < length (endpoints_of cells.now) }
    ensures { Searched cells.now (T.fits test.now cells.now) (OfEndpoint ep) best.old best.new }
{
    let Some(start) = test.earliest(cells, ep) else {
        return;
    };
    if is_passed(best, ep, start) {
        return;
    }
    first_in_places(cells, test, ep, best);
}

/// The endpoint whose symbols may fit first, and a tick before which none of them starts.
#[derive(Clone, Copy)]
struct Lead {
    ep: usize,
    start: Ticks,
    /// Whether any endpoint has symbols that may fit. Else the others say nothing.
    any: bool,
}

/// The one of two endpoints that leads: the one that led so far, or the next one, of which no symbol that fits starts before a tick.
fn next_lead(lead: Lead, ep: usize, start: Option<Ticks>) -> Lead
    ensures { (v : CellsValue) (fits : SpecStart → Bool) → IsLead v fits ep lead → FitsFrom v fits (OfEndpoint ep) start → IsLead v fits (ep + 1) result }
{
    let Some(start) = start else {
        return lead;
    };
    if start.0 < lead.start.0 {
        Lead {
            ep,
            start,
            any: true,
        }
    } else {
        Lead { any: true, ..lead }
    }
}

/// The endpoint with which a search begins: the one whose symbols may fit first.
fn leading<'c, T: SymbolTest<'c>>(cells: &'c UnitCells, test: &T) -> Lead
    ensures { IsLead cells.now (T.fits test.now cells.now) (length (endpoints_of cells.now)) result }
{
    let mut lead = Lead {
        ep: 0,
        start: Ticks(i64::MAX),
        any: false,
    };
    for ep in 0..cells.endpoints() {
        lead = next_lead(lead, ep, test.earliest(cells, ep));
    }
    lead
}

/// Makes the best symbol so far the first of it and those that fit of the endpoints from one index on, up to another one.
fn first_in_rings<'c, T: SymbolTest<'c>>(
    cells: &'c UnitCells,
    test: &T,
    from: usize,
    to: usize,
    best: &mut Option<SymbolStart>,
)
    requires { to ≤ length (endpoints_of cells.now) }
    ensures { Searched cells.now (T.fits test.now cells.now) (λ m. (from ≤ m.ep) × (m.ep < to)) best.old best.new }
{
    for ep in from..to {
        first_in_ring(cells, test, ep, best);
    }
}

/// The first symbol that fits: by its start, and at one tick by endpoint, slot and symbol. Where the endpoint with which the search
/// begins has one at the tick from which on any may fit, no other endpoint is looked at again.
pub fn first_symbol<'c, T: SymbolTest<'c>>(cells: &'c UnitCells, test: &T) -> Option<SymbolStart>
    ensures first { IsFirst cells.now (T.fits test.now cells.now) result }
{
    let count = cells.endpoints();
    let lead = leading(cells, test);
    if !lead.any {
        return None;
    }
    let mut first = None;
    first_in_places(cells, test, lead.ep, &mut first);
    let next = lead.ep + 1;
    if is_passed(&first, next, lead.start) {
        return first;
    }
    first_in_rings(cells, test, 0, lead.ep, &mut first);
    first_in_rings(cells, test, next, count, &mut first);
    first
}
