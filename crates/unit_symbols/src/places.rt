// A slot of an endpoint, and where it lies in the endpoint's ring.
ghost use Rattle.std.specs.Prelude.{◌≡◌, ◌<◌};
ghost use Rattle.fh_base.specs.Numbering.{symbols_of};
ghost use Rattle.unit_model.specs.Proper.{IsSlot};
ghost use Rattle.unit_model.specs.Starts.{start_at};

use fh_base::{Slot, air};
use slot_rings::SlotRing;
use unit_model::SymbolStart;

/// A slot that has its place in the ring of an endpoint, and the index of that place.
#[derive(Clone, Copy)]
pub struct SlotPlace<'a> {
    /// The endpoint's index in the configuration.
    pub ep: usize,
    pub ring: &'a SlotRing,
    pub index: usize,
    pub slot: Slot,
}

impl SlotPlace<'_> {
    /// A symbol of the slot, with its start.
    pub fn start(&self, symbol: u8) -> SymbolStart
        requires slot { IsSlot self.now.ring.now.endpoint.numerology self.now.slot }
        requires symbol { symbol < symbols_of self.now.ring.now.endpoint.numerology }
        ensures { result ≡ start_at self.now.ep self.now.ring.now.endpoint self.now.slot symbol }
    {
        let endpoint = self.ring.endpoint();
        SymbolStart {
            ep: self.ep,
            endpoint: *endpoint,
            start: air(&endpoint.numerology, self.slot, symbol),
            slot: self.slot,
            symbol,
        }
    }
}
