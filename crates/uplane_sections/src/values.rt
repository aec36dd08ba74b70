//! What a U-plane message is read as, and why it is refused.
ghost use Rattle.std.specs.Prelude.{◌≡◌, ◌≤◌, length};
ghost use Rattle.uplane_sections.specs.Names.{name_of};

use bfp_codec::Method;
use thiserror::Error;

/// The application header of a U-plane message (O-RAN.WG4.CUS, clause 8.3.2).
#[derive(Clone, Copy, Debug, PartialEq, Eq)]
pub struct UHead {
    /// dataDirection: true for the downlink.
    pub down: bool,
    /// filterIndex, 4 bits.
    pub filter: u8,
    /// frameId: the frame modulo 256.
    pub frame_id: u8,
    /// subframeId, 4 bits.
    pub subframe: u8,
    /// slotId, 6 bits: the slot of the subframe.
    pub slot: u8,
    /// symbolId, 6 bits: the maintained symbol number before the first section.
    pub symbol: u8,
}

/// The header of one section of a U-plane message (O-RAN.WG4.CUS, clause 8.3.2).
#[derive(Clone, Copy, Debug, PartialEq, Eq)]
pub struct USection {
    /// sectionId, 12 bits.
    pub id: u16,
    /// symInc: whether the maintained symbol number goes up by one for this section and those after
    /// it.
    pub sym_inc: bool,
    /// The maintained symbol number: the symbol of this section.
    pub symbol: u8,
    /// startPrbu, 10 bits.
    pub start_prb: u16,
    /// numPrbu; 0 means all PRBs of the carrier, from 0.
    pub num_prb: u8,
    /// How its PRBs are packed: the format's method, or the one of its own compression header.
    pub method: Method,
}

/// Why a message is refused.
#[derive(Clone, Copy, Debug, PartialEq, Eq, Error)]
pub enum UWhy {
    /// The header, a section's header or a section's PRBs are not whole.
    #[error("the message ends too early")]
    Truncated,
    /// payloadVersion is not 1.
    #[error("another version than 1")]
    Version,
    /// subframeId exceeds 9, or a subframe has no slot slotId.
    #[error("no such slot")]
    SlotRange,
    /// A slot has no symbol symbolId, or not the symbol of a section.
    #[error("no such symbol")]
    SymbolRange,
    /// A section has rb = 1.
    #[error("every other resource block")]
    EveryOtherRb,
    /// numPrbu is not 0, and a section's PRBs go past the carrier's.
    #[error("PRBs past the carrier's")]
    PrbRange,
    /// A compression header names another method than no compression with 16 bits and block
    /// floating point.
    #[error("another compression method")]
    Method,
}

impl UWhy {
    /// The name under which the reason is printed: its own.
    pub fn name(self) -> &'static str
        ensures name { result.now ≡ name_of self }
        ensures short { length result.now ≤ 12 }
    {
        match self {
            UWhy::Truncated => "Truncated",
            UWhy::Version => "Version",
            UWhy::SlotRange => "SlotRange",
            UWhy::SymbolRange => "SymbolRange",
            UWhy::EveryOtherRb => "EveryOtherRb",
            UWhy::PrbRange => "PrbRange",
            UWhy::Method => "Method",
        }
    }
}

/// A refusal of a message.
#[derive(Clone, Copy, Debug, PartialEq, Eq, Error)]
#[error("{why} at byte {place}")]
pub struct URefusal {
    /// The first byte of the header or section; for `Truncated` the message's length.
    pub place: usize,
    /// The first test that fails.
    pub why: UWhy,
}
