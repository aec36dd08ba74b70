// What is looked for among the symbols of a unit.
ghost use Rattle.std.specs.Prelude.{◌≡◌, ◌<◌, Bool, false, length, IfNone, IfSome};
ghost use Rattle.fh_base.specs.Numbering.{symbols_of};
ghost use Rattle.unit_cells.specs.Cells.{CellsValue, endpoints_of, ring_of};
ghost use Rattle.unit_model.specs.declared.symbol_start.SymbolStart.{SymbolStart as SpecStart};
ghost use Rattle.unit_symbols.specs.Places.{IsPlace, start_in};
ghost use Rattle.unit_symbols.specs.Symbols.{FitsFrom, HasNone, InSlot, OfEndpoint};
ghost use Rattle.unit_symbols.specs.Searches.{InPlace};
ghost use Rattle.unit_symbols.specs.declared.places.SlotPlace.{SlotPlace as SpecPlace};

use crate::SlotPlace;
use fh_base::Ticks;
use unit_cells::UnitCells;
use unit_model::SymbolStart;

/// What is looked for among the symbols of cells.
///
/// A test says early where there is none, or none before a tick. So no place of such an endpoint is looked at, no slot of such a place and
/// no symbol of such a slot, and none that starts after the first one found.
pub trait SymbolTest<'c> {
    /// What is looked up of a slot once for all its symbols.
    type Lookup: Copy;

    /// A symbol is one of those that are looked for, by these cells.
    ghost fits: { Self → CellsValue → SpecStart → Bool };

    /// This was looked up of a slot.
    ghost is_looked_up: { Self → CellsValue → SpecPlace → Self.Lookup → Type 0 };

    /// A tick before which no symbol of an endpoint starts that fits. None only where none of them fits.
    fn earliest(&self, cells: &UnitCells, ep: usize) -> Option<Ticks>
        requires { ep < length (endpoints_of cells.now) }
        ensures { FitsFrom cells.now (fits self.now cells.now) (OfEndpoint ep) result };

    /// A tick before which no symbol starts that fits, of the slot that has the place with an index in an endpoint's ring. None only where
    /// none of them fits.
    fn earliest_at(&self, cells: &UnitCells, ep: usize, index: usize) -> Option<Ticks>
        requires ep { ep < length (endpoints_of cells.now) }
        requires index { IfSome (ring_of cells.now ep) (λ r. index < length r.places) }
        ensures { FitsFrom cells.now (fits self.now cells.now) (InPlace cells.now ep index) result };

    /// Looks up what its symbols need of a slot. None only where none of them fits.
    fn look_up(&self, cells: &'c UnitCells, place: &SlotPlace<'c>) -> Option<Self::Lookup>
        requires { IsPlace cells.now place.now }
        ensures none { IfNone result (HasNone cells.now (fits self.now cells.now) (InSlot place.now.ep place.now.slot)) }
        ensures some { IfSome result (is_looked_up self.now cells.now place.now) };

    /// Whether a symbol of a slot may fit, by a look at no cell.
    fn may_fit(&self, cells: &UnitCells, place: &SlotPlace<'_>, symbol: u8) -> bool
        requires place { IsPlace cells.now place.now }
        requires symbol { symbol < symbols_of place.now.ring.now.endpoint.numerology }
        ensures { result ≡ false → fits self.now cells.now (start_in place.now symbol) ≡ false };

    /// Whether a symbol of a slot fits.
    fn does_fit(
        &self,
        cells: &'c UnitCells,
        place: &SlotPlace<'c>,
        lookup: Self::Lookup,
        m: &SymbolStart,
    ) -> bool
        requires place { IsPlace cells.now place.now }
        requires lookup { is_looked_up self.now cells.now place.now lookup }
        requires symbol { m.now.symbol < symbols_of place.now.ring.now.endpoint.numerology }
        requires is { m.now ≡ start_in place.now m.now.symbol }
        ensures { result ≡ fits self.now cells.now m.now };
}
