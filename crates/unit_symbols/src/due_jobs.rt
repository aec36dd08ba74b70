// The symbols of which a message is left.
ghost use Rattle.std.specs.Prelude.{◌≡◌, ◌<◌, false, length, reverse, IfNone, IfSome};
ghost use Rattle.fh_base.specs.Numbering.{symbols_of};
ghost use Rattle.unit_symbols.specs.Places.{IsPlace, start_in};
ghost use Rattle.unit_symbols.specs.Searches.{InPlace};
ghost use Rattle.unit_symbols.specs.Symbols.{FitsFrom, HasNone, InSlot, OfEndpoint};
ghost use Rattle.unit_cells.specs.Cells.{cells_uplink, endpoints_of, ring_of};
ghost use Rattle.unit_symbols.specs.Cursors.{is_job_left};

use crate::cursor::JobCursor;
use crate::left::has_left;
use crate::{SlotPlace, SymbolTest};
use fh_base::Ticks;
use unit_cells::UnitCells;
use unit_model::{Allocation, SymbolStart};

/// A cursor looks for symbols of which it leaves a message.
impl<'c> SymbolTest<'c> for JobCursor {
    /// The accepted uplink sections of the slot, the newest last.
    type Lookup = &'c [Allocation];

    ghost fits = { λ t v m. is_job_left v t m };

    ghost is_looked_up = { λ _ v p xs. reverse xs.now ≡ cells_uplink v p.ep p.slot };

    /// Nothing is left of symbols that start before `since`.
    fn earliest(&self, cells: &UnitCells, ep: usize) -> Option<Ticks>
        requires { ep < length (endpoints_of cells.now) }
        ensures { FitsFrom cells.now (is_job_left cells.now self.now) (OfEndpoint ep) result }
    {
        if cells.ring(ep).has_uplink() {
            Some(self.since)
        } else {
            None
        }
    }

    fn earliest_at(&self, cells: &UnitCells, ep: usize, index: usize) -> Option<Ticks>
        requires ep { ep < length (endpoints_of cells.now) }
        requires index { IfSome (ring_of cells.now ep) (λ r. index < length r.places) }
        ensures { FitsFrom cells.now (is_job_left cells.now self.now) (InPlace cells.now ep index) result }
    {
        if cells.ring(ep).has_uplink_at(index) {
            Some(self.since)
        } else {
            None
        }
    }

    fn look_up(&self, cells: &'c UnitCells, place: &SlotPlace<'c>) -> Option<&'c [Allocation]>
        requires { IsPlace cells.now place.now }
        ensures none { IfNone result (HasNone cells.now (is_job_left cells.now self.now) (InSlot place.now.ep place.now.slot)) }
        ensures some { IfSome result (λ xs. reverse xs.now ≡ cells_uplink cells.now place.now.ep place.now.slot) }
    {
        let uplink = place.ring.uplink(place.slot);
        if uplink.is_empty() {
            None
        } else {
            Some(uplink)
        }
    }

    /// Any symbol of a slot that has uplink sections may.
    fn may_fit(&self, _cells: &UnitCells, place: &SlotPlace<'_>, symbol: u8) -> bool
        requires place { IsPlace _cells.now place.now }
        requires symbol { symbol < symbols_of place.now.ring.now.endpoint.numerology }
        ensures { result ≡ false → is_job_left _cells.now self.now (start_in place.now symbol) ≡ false }
    {
        true
    }

    fn does_fit(
        &self,
        cells: &'c UnitCells,
        place: &SlotPlace<'c>,
        uplink: &'c [Allocation],
        m: &SymbolStart,
    ) -> bool
        requires place { IsPlace cells.now place.now }
        requires lookup { reverse uplink.now ≡ cells_uplink cells.now place.now.ep place.now.slot }
        requires symbol { m.now.symbol < symbols_of place.now.ring.now.endpoint.numerology }
        requires is { m.now ≡ start_in place.now m.now.symbol }
        ensures { result ≡ is_job_left cells.now self.now m.now }
    {
        has_left(self, m, uplink)
    }
}
