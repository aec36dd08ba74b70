// What is told of spans.

use fh_base::Slot;

/// A symbol of an endpoint.
#[derive(Clone, Copy, Debug, PartialEq, Eq)]
pub struct Place {
    pub slot: Slot,
    /// The symbol in the slot, from 0.
    pub symbol: u8,
}

/// A run of silent symbols that no symbol before or after it extends.
#[derive(Clone, Copy, Debug, PartialEq, Eq)]
pub struct Span {
    /// Its first symbol.
    pub first: Place,
    /// Its last symbol.
    pub last: Place,
    /// How many symbols it has.
    pub symbols: u32,
    /// In how many of them a cell is missing.
    pub missed: u32,
}

/// What is known of a symbol.
#[derive(Clone, Copy, Debug, PartialEq, Eq)]
pub(crate) struct Mark {
    /// A cell of it has samples.
    pub(crate) shown: bool,
    /// A cell of it is missing.
    pub(crate) missed: bool,
}
