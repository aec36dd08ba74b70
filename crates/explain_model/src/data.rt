// Sections of data.
ghost use Rattle.std.specs.Prelude.{◌≡◌};
ghost use Rattle.explain_model.specs.Keys.{data_key};

use crate::keys::SymbolKey;
use air_source::Side;
use fh_base::Slot;
use window_config::Class;

/// A decoded section of data: one of a message that became whole and was not refused.
#[derive(Clone, Copy, Debug, PartialEq, Eq)]
pub struct DataRecord {
    /// The unit at which it was received.
    pub side: Side,
    /// The endpoint's index in the configuration.
    pub ep: usize,
    /// The message's slot, by the frame nearest to its last arrival.
    pub slot: Slot,
    /// The section's own symbol.
    pub symbol: u8,
    /// The first PRB that it covers.
    pub first_prb: u16,
    /// How many PRBs it covers.
    pub prbs: u16,
    /// sectionId.
    pub section: u16,
    /// The number of the arrival that made its message whole.
    pub number: u32,
    /// How it relates to its window.
    pub class: Class,
    /// How far it lies outside of its window, in whole nanoseconds; 0 where it is on time.
    pub distance: u64,
}

impl DataRecord {
    /// The symbol that it speaks of.
    pub fn key(&self) -> SymbolKey
        ensures { result ≡ data_key self.now }
    {
        SymbolKey {
            side: self.side,
            ep: self.ep,
            slot: self.slot,
            symbol: self.symbol,
        }
    }
}
