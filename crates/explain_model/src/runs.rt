// Runs of cells.
ghost use Rattle.std.specs.Prelude.{◌≡◌};
ghost use Rattle.explain_model.specs.Keys.{run_key};

use crate::keys::SymbolKey;
use air_source::Side;
use fh_base::{Slot, Ticks};

/// Cells that a unit reported one after the other: neighbours of one symbol, alike in all but their PRBs.
#[derive(Clone, Copy, Debug, PartialEq, Eq)]
pub struct CellRun {
    /// The unit that reported them.
    pub side: Side,
    /// The start of their symbol on the air.
    pub at: Ticks,
    /// The eAxC id of the endpoint.
    pub id: u16,
    /// The endpoint's index in the configuration.
    pub ep: usize,
    pub slot: Slot,
    /// The symbol in the slot, from 0.
    pub symbol: u8,
    /// The first PRB.
    pub prb: u16,
    /// How many.
    pub count: u16,
    /// The id of the section that claimed them.
    pub section: u16,
    /// Their elements in use, in 12 bits.
    pub mask: u16,
    /// Whether they have samples.
    pub shown: bool,
}

impl CellRun {
    /// The symbol that it speaks of.
    pub fn key(&self) -> SymbolKey
        ensures { result ≡ run_key self.now }
    {
        SymbolKey {
            side: self.side,
            ep: self.ep,
            slot: self.slot,
            symbol: self.symbol,
        }
    }
}
