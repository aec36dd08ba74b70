// A symbol of an endpoint, and when it starts.
ghost use Rattle.std.specs.Prelude.{◌≡◌};
ghost use Rattle.unit_model.specs.Order.{comes_before, slot_before, symbol_before};

use crate::slots::same_slot;
use fh_base::{Slot, Ticks};
use window_config::EndpointConfig;

/// A symbol of an endpoint, and when it starts.
#[derive(Clone, Copy, Debug, PartialEq, Eq)]
pub struct SymbolStart {
    /// The endpoint's index in the configuration.
    pub ep: usize,
    pub endpoint: EndpointConfig,
    /// When the symbol starts.
    pub start: Ticks,
    pub slot: Slot,
    pub symbol: u8,
}

/// Whether a slot is an earlier one than another.
fn slot_before(a: Slot, b: Slot) -> bool
    ensures { result ≡ slot_before a b }
{
    a.frame < b.frame
        || (a.frame == b.frame
            && (a.subframe < b.subframe || (a.subframe == b.subframe && a.slot < b.slot)))
}

/// Whether a symbol of an endpoint is an earlier one than another.
fn symbol_before(a: Slot, x: u8, b: Slot, y: u8) -> bool
    ensures { result ≡ symbol_before a x b y }
{
    slot_before(a, b) || (same_slot(&a, &b) && x < y)
}

/// Whether a symbol is told before another: by their starts, and at one tick by endpoint, slot and symbol.
pub fn comes_before(a: &SymbolStart, b: &SymbolStart) -> bool
    ensures { result ≡ comes_before a.now b.now }
{
    a.start.0 < b.start.0
        || (a.start.0 == b.start.0
            && (a.ep < b.ep || (a.ep == b.ep && symbol_before(a.slot, a.symbol, b.slot, b.symbol))))
}
