// What a unit answers to frames.
use air_source::AirCell;
use fault_counters::Counters;
use fh_base::{Bytes, List, Ticks};
use unit_model::{CommandVerdict, DataVerdict, UplinkJob};

/// A frame, one eCPRI PDU, and when it arrives.
#[derive(Drop)]
pub struct TimedFrame {
    pub at: Ticks,
    pub frame: Bytes,
}

/// What a unit made of frames, up to a time.
#[derive(Drop)]
pub struct Report {
    /// The verdicts on the sections of C-plane messages, in the order in which they were met.
    pub command_verdicts: List<CommandVerdict>,
    /// The verdicts on the sections of U-plane messages, in the order in which they were met.
    pub data_verdicts: List<DataVerdict>,
    /// Every counter of the unit.
    pub counters: Counters,
    /// The cells that it reports, in the order of time, endpoint, slot, symbol and PRB.
    pub cells: List<AirCell>,
    /// The uplink messages that it is to send, in the order of time, endpoint, slot and symbol; none at the distributed unit.
    pub jobs: List<UplinkJob>,
}
