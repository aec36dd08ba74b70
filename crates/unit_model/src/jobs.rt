// What a unit answers beside verdicts.
use ecpri_frames::PduRefusal;
use fh_base::{Slot, Ticks};

/// One symbol of an accepted uplink section, for which the radio unit sends a U-plane message.
#[derive(Clone, Copy, Debug, PartialEq, Eq)]
pub struct UplinkJob {
    /// The endpoint's index in the configuration.
    pub ep: usize,
    /// When the symbol starts.
    pub s: Ticks,
    pub slot: Slot,
    pub symbol: u8,
    /// filterIndex of the command.
    pub filter: u8,
    /// sectionId of the command.
    pub section: u16,
    /// startPrbc of the command, as it was carried.
    pub start_prb: u16,
    /// numPrbc of the command; 0 is all PRBs of the carrier.
    pub num_prb: u8,
}

/// What became of a frame that was delivered.
#[derive(Clone, Copy, Debug, PartialEq, Eq)]
pub struct Delivered {
    /// How many whole messages it had, or the greatest `u32` where it had more.
    pub messages: u32,
    /// Why the frame spells no PDU, if it does not.
    pub refusal: Option<PduRefusal>,
}
