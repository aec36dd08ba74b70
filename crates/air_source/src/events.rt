// What an air hears.
use bfp_codec::Wide;
use fault_counters::Counter;
use fh_base::{Bytes, Slot, Ticks};

/// A unit of the fronthaul: the radio unit (O-RU) or the distributed unit (O-DU).
#[derive(Clone, Copy, Debug, PartialEq, Eq)]
pub enum Side {
    /// The radio unit, which reports downlink cells.
    Ru,
    /// The distributed unit, which reports uplink cells.
    Du,
}

/// A cell that a unit reports: one PRB in one symbol of an endpoint, and its samples.
#[derive(Clone, Copy, Debug, PartialEq, Eq)]
pub struct AirCell {
    /// The unit that reports it.
    pub side: Side,
    /// The start of its symbol on the air.
    pub at: Ticks,
    /// The eAxC id of the endpoint.
    pub id: u16,
    /// The slot.
    pub slot: Slot,
    /// The symbol in the slot, from 0.
    pub symbol: u8,
    /// The PRB, from 0.
    pub prb: u16,
    /// The id of the section that claimed it (sectionId of O-RAN.WG4.CUS, 12 bits).
    pub section: u16,
    /// The claimed elements that are not idle, in 12 bits as in reMask of O-RAN.WG4.CUS; the most
    /// significant one is element 0.
    pub mask: u16,
    /// The samples of its elements, or None where they are missing.
    pub block: Option<[Wide; 12]>,
}

/// What an air hears at one call.
#[derive(Drop)]
pub enum Event {
    /// A cell was reported.
    Cell(AirCell),
    /// A one-way delay was measured (message type 5 of eCPRI 2.0).
    Delay {
        /// When the message that gave it arrived.
        at: Ticks,
        /// The unit that measured it.
        side: Side,
        /// The measurement id.
        id: u8,
        /// The delay, in units of 2^-16 ns.
        value: i128,
    },
    /// A frame arrived, one eCPRI PDU.
    Arrival {
        /// The unit at which it arrived.
        side: Side,
        /// When it arrived.
        at: Ticks,
        /// Its bytes.
        frame: Bytes,
    },
    /// A counter has a value.
    Count {
        /// The unit whose counter it is.
        side: Side,
        /// The counter.
        counter: Counter,
        /// Its value.
        value: u64,
    },
}
