// The combined cell of a place.
use fh_base::{Slot, Ticks};

/// The sum of the samples of a resource element.
#[derive(Clone, Copy, Debug, PartialEq, Eq)]
pub struct Sum {
    /// The sum of the in-phase parts.
    pub i: i64,
    /// The sum of the quadrature parts.
    pub q: i64,
}

/// The combined cell of a place: one PRB in one symbol of an endpoint, and the sums of its samples.
#[derive(Clone, Copy, Debug, PartialEq, Eq)]
pub struct Mixed {
    /// The start of its symbol on the air.
    pub at: Ticks,
    /// The eAxC id of the endpoint.
    pub id: u16,
    /// The slot.
    pub slot: Slot,
    /// The symbol in the slot, from 0.
    pub symbol: u8,
    /// The PRB, from 0.
    pub prb: u16,
    /// The id of the section that claimed it (sectionId of O-RAN.WG4.CUS, 12 bits).
    pub section: u16,
    /// The claimed elements that are not idle, in 12 bits as in reMask of O-RAN.WG4.CUS; the most
    /// significant one is element 0.
    pub mask: u16,
    /// How many units have samples there.
    pub units: u8,
    /// The sums of its elements: 0 outside the mask, and where no unit has samples.
    pub sums: [Sum; 12],
}
