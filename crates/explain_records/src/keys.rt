// What records are found by.
ghost use Rattle.std.specs.Prelude.{◌≡◌};
ghost use Rattle.explain_records.specs.Order.{order_of};
ghost use Rattle.explain_model.specs.declared.keys.SymbolKey.{SymbolKey as SpecKey};

use air_source::Side;
use explain_model::SymbolKey;

/// A record that has a key.
pub trait Keyed {
    /// The record's key.
    ghost key_of: { Self → SpecKey };

    /// The record's key.
    fn symbol_key(&self) -> SymbolKey
        ensures { result ≡ key_of self.now };
}

/// What keys are sorted by.
#[derive(Clone, Copy, Debug, PartialEq, Eq, PartialOrd, Ord)]
pub(crate) struct OrderKey {
    is_distributed: bool,
    ep: usize,
    frame: i64,
    subframe: u8,
    slot: u8,
    symbol: u8,
}

/// A key in the order of keys: by unit, endpoint, slot and symbol.
pub(crate) fn order_of(key: SymbolKey) -> OrderKey
    ensures { result ≡ order_of key }
{
    OrderKey {
        is_distributed: key.side == Side::Du,
        ep: key.ep,
        frame: key.slot.frame,
        subframe: key.slot.subframe,
        slot: key.slot.slot,
        symbol: key.symbol,
    }
}
