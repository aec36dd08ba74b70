// What records are ordered by.
use air_source::Side;
use fh_base::Slot;

/// A symbol of an endpoint at a unit.
#[derive(Clone, Copy, Debug, PartialEq, Eq)]
pub struct SymbolKey {
    /// The unit.
    pub side: Side,
    /// The endpoint's index in the configuration.
    pub ep: usize,
    pub slot: Slot,
    /// The symbol in the slot, from 0.
    pub symbol: u8,
}

/// A slot of an endpoint at the radio unit.
#[derive(Clone, Copy, Debug, PartialEq, Eq)]
pub struct SlotKey {
    /// The endpoint's index in the configuration.
    pub ep: usize,
    pub slot: Slot,
}
