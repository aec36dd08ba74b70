// Messages of data of which the header alone is known.
ghost use Rattle.std.specs.Prelude.{◌≡◌};
ghost use Rattle.explain_model.specs.Keys.{header_key, repeated_key, beginning_key};

use crate::keys::SymbolKey;
use air_source::Side;
use fh_base::Slot;

/// What became of a message that was not decoded.
#[derive(Clone, Copy, Debug, PartialEq, Eq)]
pub enum HeaderWhy {
    /// Its layout was refused.
    Refused,
    /// It has the other unit's direction.
    WrongWay,
}

/// A whole message of data that is refused, or of the other unit's direction, and whose header names a symbol.
#[derive(Clone, Copy, Debug, PartialEq, Eq)]
pub struct HeaderRecord {
    /// The unit at which it was received.
    pub side: Side,
    /// The endpoint's index in the configuration.
    pub ep: usize,
    /// The message's slot, by the frame nearest to its last arrival.
    pub slot: Slot,
    /// symbolId of the header.
    pub symbol: u8,
    /// The number of the arrival that made it whole.
    pub number: u32,
    pub why: HeaderWhy,
}

/// A first fragment that was received under a sequence id that another message's first fragment has in its generation.
#[derive(Clone, Copy, Debug, PartialEq, Eq)]
pub struct RepeatedRecord {
    /// The unit at which it was received.
    pub side: Side,
    /// The endpoint's index in the configuration.
    pub ep: usize,
    /// The slot that its header names, by the frame nearest to its own arrival.
    pub slot: Slot,
    /// symbolId of its header.
    pub symbol: u8,
    /// Its sequence id.
    pub seq: u8,
    /// The number of its arrival.
    pub number: u32,
}

/// A generation of fragments that is not complete, of which the first fragment is stored.
#[derive(Clone, Copy, Debug, PartialEq, Eq)]
pub struct BeginningRecord {
    /// The unit at which it was received.
    pub side: Side,
    /// The endpoint's index in the configuration.
    pub ep: usize,
    /// The slot that the header of its first fragment names, by the frame nearest to that fragment's arrival.
    pub slot: Slot,
    /// symbolId of that header.
    pub symbol: u8,
    /// Its sequence id.
    pub seq: u8,
    /// How many fragments are stored in it.
    pub pieces: u8,
    /// The number of the arrival of its first fragment.
    pub number: u32,
}

impl HeaderRecord {
    /// The symbol that it speaks of.
    pub fn key(&self) -> SymbolKey
        ensures { result ≡ header_key self.now }
    {
        SymbolKey {
            side: self.side,
            ep: self.ep,
            slot: self.slot,
            symbol: self.symbol,
        }
    }
}

impl RepeatedRecord {
    /// The symbol that it speaks of.
    pub fn key(&self) -> SymbolKey
        ensures { result ≡ repeated_key self.now }
    {
        SymbolKey {
            side: self.side,
            ep: self.ep,
            slot: self.slot,
            symbol: self.symbol,
        }
    }
}

impl BeginningRecord {
    /// The symbol that it speaks of.
    pub fn key(&self) -> SymbolKey
        ensures { result ≡ beginning_key self.now }
    {
        SymbolKey {
            side: self.side,
            ep: self.ep,
            slot: self.slot,
            symbol: self.symbol,
        }
    }
}
