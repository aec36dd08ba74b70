// The lines of a plan.

use fh_base::Slot;

/// The last frame that a line names.
pub const LAST_FRAME: u64 = 99_999;

/// The most lines of a plan.
pub const PLAN_LINES: usize = 65_536;

/// What a line plans.
#[derive(Clone, Copy, Debug, PartialEq, Eq)]
pub enum PlanKind {
    /// Samples to be radiated.
    Down,
    /// Samples to be taken in.
    Up,
    /// Downlink resources on which nothing is radiated (section type 0).
    Idle,
}

/// One section, planned for some symbols of a slot.
#[derive(Clone, Copy, Debug, PartialEq, Eq)]
pub struct PlanLine {
    pub kind: PlanKind,
    /// The endpoint's eAxC id.
    pub id: u16,
    pub slot: Slot,
    /// The first symbol (startSymbolId).
    pub symbol: u8,
    /// How many symbols (numSymbol).
    pub count: u8,
    /// The first PRB (startPrb).
    pub start_prb: u16,
    /// How many PRBs (numPrb); 0 is all of the carrier's, whatever `start_prb`.
    pub num_prb: u8,
    /// The resource elements of each PRB (reMask), sample 0 in the most significant of 12 bits.
    pub mask: u16,
    /// The section's id (sectionId).
    pub section: u16,
    /// The beam's id (beamId).
    pub beam: u16,
}
