// The next symbol of which something is to be reported.
ghost use Rattle.std.specs.Prelude.{◌≡◌, ◌-◌, ◌<◌, int_le, false, length, IfNone, IfSome};
ghost use Rattle.fh_base.specs.Air.{air_of};
ghost use Rattle.fh_base.specs.Numbering.{symbols_of};
ghost use Rattle.unit_symbols.specs.Places.{IsPlace, start_in};
ghost use Rattle.unit_symbols.specs.Searches.{InPlace};
ghost use Rattle.unit_symbols.specs.Symbols.{FitsFrom, HasNone, InSlot, IsFirst, OfEndpoint};
ghost use Rattle.unit_cells.specs.Cells.{endpoints_of, ring_of};
ghost use Rattle.unit_model.specs.Proper.{IsSlot};
ghost use Rattle.unit_symbols.specs.DueSymbols.{is_left_after};

use crate::{SlotPlace, SymbolTest, first_symbol};
use fh_base::{Slot, Ticks, air, shape};
use unit_cells::UnitCells;
use unit_model::SymbolStart;
use window_config::EndpointConfig;

/// Symbols that start after a time, in ticks, and of which a downlink cell is in use and was not reported.
#[derive(Clone, Copy)]
struct LeftAfter {
    after: Ticks,
}

/// Whether no symbol of a slot starts after a time: the last one does not.
fn is_past(endpoint: &EndpointConfig, slot: Slot, after: Ticks) -> bool
    requires { IsSlot endpoint.now.numerology slot }
    ensures { result ≡ int_le (air_of endpoint.now.numerology slot (symbols_of endpoint.now.numerology - 1)) after.0 }
{
    let last = shape(&endpoint.numerology).symbols - 1;
    air(&endpoint.numerology, slot, last).0 <= after.0
}

impl SymbolTest<'_> for LeftAfter {
    /// What is asked of a slot goes by the index of its place.
    type Lookup = ();

    ghost fits = { λ t v m. is_left_after v t.after.0 m };

    ghost is_looked_up = { λ _ _ _ _. Unit {0} };

    /// Looks at two numbers.
    fn earliest(&self, cells: &UnitCells, ep: usize) -> Option<Ticks>
        requires { ep < length (endpoints_of cells.now) }
        ensures { FitsFrom cells.now (is_left_after cells.now self.now.after.0) (OfEndpoint ep) result }
    {
        cells.ring(ep).earliest()
    }

    /// Looks at two numbers.
    fn earliest_at(&self, cells: &UnitCells, ep: usize, index: usize) -> Option<Ticks>
        requires ep { ep < length (endpoints_of cells.now) }
        requires index { IfSome (ring_of cells.now ep) (λ r. index < length r.places) }
        ensures { FitsFrom cells.now (is_left_after cells.now self.now.after.0) (InPlace cells.now ep index) result }
    {
        cells.ring(ep).earliest_at(index)
    }

    fn look_up(&self, cells: &UnitCells, place: &SlotPlace<'_>) -> Option<()>
        requires { IsPlace cells.now place.now }
        ensures none { IfNone result (HasNone cells.now (is_left_after cells.now self.now.after.0) (InSlot place.now.ep place.now.slot)) }
        ensures some { IfSome result (λ _. Unit {0}) }
    {
        if is_past(place.ring.endpoint(), place.slot, self.after) {
            None
        } else {
            Some(())
        }
    }

    /// Looks at one flag.
    fn may_fit(&self, cells: &UnitCells, place: &SlotPlace<'_>, symbol: u8) -> bool
        requires place { IsPlace cells.now place.now }
        requires symbol { symbol < symbols_of place.now.ring.now.endpoint.numerology }
        ensures { result ≡ false → is_left_after cells.now self.now.after.0 (start_in place.now symbol) ≡ false }
    {
        place.ring.is_pending(place.index, symbol)
    }

    fn does_fit(
        &self,
        cells: &UnitCells,
        place: &SlotPlace<'_>,
        _lookup: (),
        m: &SymbolStart,
    ) -> bool
        requires place { IsPlace cells.now place.now }
        requires symbol { m.now.symbol < symbols_of place.now.ring.now.endpoint.numerology }
        requires is { m.now ≡ start_in place.now m.now.symbol }
        ensures { result ≡ is_left_after cells.now self.now.after.0 m.now }
    {
        m.start.0 > self.after.0 && place.ring.is_used(place.slot, m.symbol)
    }
}

/// The first symbol that starts after a time, in ticks, and of which a downlink cell is in use and was not reported: by its start,
/// and at one tick by endpoint, slot and symbol.
pub fn first_left(cells: &UnitCells, after: Ticks) -> Option<SymbolStart>
    ensures first { IsFirst cells.now (is_left_after cells.now after.0) result }
{
    first_symbol(cells, &LeftAfter { after })
}
