// Where cells are.
ghost use Rattle.std.specs.Prelude.{◌≡◌};
ghost use Rattle.shared_cell.specs.Places.{is_mixed_at, place_in, place_of};

use crate::Mixed;
use air_source::AirCell;

/// Where a cell is: a slot, a symbol, an endpoint and a PRB. Of endpoints of one numerology whose ids rise, a unit reports its
/// cells in this order.
#[derive(Clone, Copy, Debug, PartialEq, Eq, PartialOrd, Ord)]
pub struct CellPlace {
    pub frame: i64,
    pub subframe: u8,
    pub slot: u8,
    pub symbol: u8,
    pub id: u16,
    pub prb: u16,
}

/// The place of a cell.
pub fn place_of(c: &AirCell) -> CellPlace
    ensures { result ≡ place_of c.now }
{
    CellPlace {
        frame: c.slot.frame,
        subframe: c.slot.subframe,
        slot: c.slot.slot,
        symbol: c.symbol,
        id: c.id,
        prb: c.prb,
    }
}

/// The place of a combined cell.
pub fn place_in(mixed: &Mixed) -> CellPlace
    ensures { result ≡ place_in mixed.now }
{
    CellPlace {
        frame: mixed.slot.frame,
        subframe: mixed.slot.subframe,
        slot: mixed.slot.slot,
        symbol: mixed.symbol,
        id: mixed.id,
        prb: mixed.prb,
    }
}

/// Whether a combined cell is at a place.
pub fn is_at(mixed: &Mixed, place: &CellPlace) -> bool
    ensures { result ≡ is_mixed_at place.now mixed.now }
{
    place.frame == mixed.slot.frame
        && place.subframe == mixed.slot.subframe
        && place.slot == mixed.slot.slot
        && place.symbol == mixed.symbol
        && place.id == mixed.id
        && place.prb == mixed.prb
}
