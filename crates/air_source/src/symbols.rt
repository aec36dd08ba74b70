// The symbol that the line of a cell begins with.
ghost use Rattle.std.specs.Prelude.{◌≡◌, true, Some};
ghost use Rattle.air_source.specs.SymbolWords.{symbol_of, same_symbol};
ghost use Rattle.air_source.specs.Units.{same_side};

use crate::{AirCell, Side};
use fh_base::{Slot, Ticks};

/// A symbol of an endpoint, on the air at one time, that a unit reports.
#[derive(Clone, Copy)]
pub struct CellSymbol {
    pub side: Side,
    pub at: Ticks,
    pub id: u16,
    pub slot: Slot,
    pub symbol: u8,
}

/// The symbol of a cell.
pub(crate) fn symbol_of(c: &AirCell) -> CellSymbol
    ensures { result ≡ symbol_of c.now }
{
    CellSymbol {
        side: c.side,
        at: c.at,
        id: c.id,
        slot: c.slot,
        symbol: c.symbol,
    }
}

fn same_side(a: Side, b: Side) -> bool
    ensures { result ≡ same_side a b }
{
    match a {
        Side::Ru => match b {
            Side::Ru => true,
            Side::Du => false,
        },
        Side::Du => match b {
            Side::Ru => false,
            Side::Du => true,
        },
    }
}

// Both are the same symbol of the same endpoint and unit, at the same time.
fn same_symbol(a: &CellSymbol, b: &CellSymbol) -> bool
    ensures { result ≡ same_symbol a.now b.now }
{
    same_side(a.side, b.side)
        && a.at.0 == b.at.0
        && a.id == b.id
        && a.slot.frame == b.slot.frame
        && a.slot.subframe == b.slot.subframe
        && a.slot.slot == b.slot.slot
        && a.symbol == b.symbol
}

/// This symbol is the one that is held.
pub(crate) fn holds(held: &Option<CellSymbol>, symbol: &CellSymbol) -> bool
    ensures { result ≡ true → held.now ≡ Some symbol.now }
{
    match held {
        None => false,
        Some(other) => same_symbol(other, symbol),
    }
}
