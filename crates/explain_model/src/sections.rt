// Sections of commands.
ghost use Rattle.std.specs.Prelude.{◌≡◌};
ghost use Rattle.explain_model.specs.Keys.{command_key};

use crate::keys::SlotKey;
use fh_base::Slot;
use unit_model::CommandVerdict;

/// A section of type 1 or 3 that was decoded at the radio unit, with a reMask that is not 0.
#[derive(Clone, Copy, Debug, PartialEq, Eq)]
pub struct CommandRecord {
    /// The endpoint's index in the configuration.
    pub ep: usize,
    /// dataDirection: whether it is for the downlink.
    pub down: bool,
    /// The header's slot, by the frame nearest to its arrival.
    pub slot: Slot,
    /// Its own first symbol.
    pub symbol: u8,
    /// How many symbols.
    pub num_symbol: u8,
    /// startPrb, as it was carried; it is not looked at where `num_prb` is 0.
    pub start_prb: u16,
    /// numPrb, as it was carried; 0 is all of the carrier's PRBs.
    pub num_prb: u8,
    /// reMask, not 0.
    pub mask: u16,
    /// The number of its arrival.
    pub number: u32,
    /// What became of it.
    pub verdict: CommandVerdict,
    /// How far it lies outside of its window, in whole nanoseconds; 0 where the verdict is neither late nor early.
    pub distance: u64,
}

impl CommandRecord {
    /// The slot that it speaks of.
    pub fn key(&self) -> SlotKey
        ensures { result ≡ command_key self.now }
    {
        SlotKey {
            ep: self.ep,
            slot: self.slot,
        }
    }
}
