// The symbol of an endpoint that a line speaks of.
ghost use Rattle.std.specs.Prelude.{◌≡◌};
ghost use Rattle.report_airs.specs.Places.{place_of, same_place};
ghost use Rattle.air_source.specs.Units.{same_side};

use air_source::{AirCell, Side};
use fh_base::{Slot, Ticks};

/// A symbol of an endpoint, on the air at one time, that a unit reports.
#[derive(Clone, Copy)]
pub struct SymbolPlace {
    pub side: Side,
    pub at: Ticks,
    pub id: u16,
    pub slot: Slot,
    pub symbol: u8,
}

/// The symbol of a cell.
pub fn place_of(c: &AirCell) -> SymbolPlace
    ensures { result ≡ place_of c.now }
{
    SymbolPlace {
        side: c.side,
        at: c.at,
        id: c.id,
        slot: c.slot,
        symbol: c.symbol,
    }
}

fn same_side(a: Side, b: Side) -> bool
    ensures { result ≡ same_side a b }
{
    match a {
        Side::Ru => match b {
            Side::Ru => true,
            Side::Du => false,
        },
        Side::Du => match b {
            Side::Ru => false,
            Side::Du => true,
        },
    }
}

/// Both are the same symbol of the same endpoint and unit, at the same time.
pub fn same_place(a: &SymbolPlace, b: &SymbolPlace) -> bool
    ensures { result ≡ same_place a.now b.now }
{
    same_side(a.side, b.side)
        && a.at.0 == b.at.0
        && a.id == b.id
        && a.slot.frame == b.slot.frame
        && a.slot.subframe == b.slot.subframe
        && a.slot.slot == b.slot.slot
        && a.symbol == b.symbol
}
