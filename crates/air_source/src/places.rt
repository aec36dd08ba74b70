// Where samples are.
use fh_base::Slot;

/// A resource element of a carrier (3GPP TS 38.211, 4.4).
///
/// [`Samples`](crate::Samples) ask only at symbols under 14, PRBs under 273 and elements under 12.
#[derive(Clone, Copy, Debug, PartialEq, Eq)]
pub struct RePlace {
    /// The eAxC id of its endpoint.
    pub id: u16,
    /// The slot.
    pub slot: Slot,
    /// The symbol in the slot, from 0.
    pub symbol: u8,
    /// The PRB of the carrier, from 0.
    pub prb: u16,
    /// The element of the PRB, from 0.
    pub re: u8,
}
