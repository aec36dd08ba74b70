//! What a C-plane message is read as, and why it is refused.
ghost use Rattle.std.specs.Prelude.{◌≡◌, ◌≤◌, length};
ghost use Rattle.cplane_sections.specs.Names.{name_of};

use thiserror::Error;

/// The part of the application header that its section type alone has.
#[derive(Clone, Copy, Debug, PartialEq, Eq)]
pub enum CBody {
    /// Section type 0: resource blocks that stay idle.
    Idle {
        /// timeOffset, 16 bits.
        time_offset: u16,
        /// frameStructure: an FFT size in the upper 4 bits and a spacing code in the lower 4.
        structure: u8,
        /// cpLength, 16 bits.
        cp_length: u16,
    },
    /// Section type 1: most channels.
    Normal {
        /// udCompHdr, 8 bits.
        comp: u8,
    },
    /// Section type 3: PRACH and channels of another numerology.
    Offset {
        /// timeOffset, 16 bits.
        time_offset: u16,
        /// frameStructure: an FFT size in the upper 4 bits and a spacing code in the lower 4.
        structure: u8,
        /// cpLength, 16 bits.
        cp_length: u16,
        /// udCompHdr, 8 bits.
        comp: u8,
    },
}

/// The application header of a C-plane message (O-RAN.WG4.CUS, clause 7.5.2).
#[derive(Clone, Copy, Debug, PartialEq, Eq)]
pub struct CHead {
    /// dataDirection: true for the downlink.
    pub down: bool,
    /// filterIndex, 4 bits.
    pub filter: u8,
    /// frameId: the frame modulo 256.
    pub frame_id: u8,
    /// subframeId, 4 bits.
    pub subframe: u8,
    /// slotId, 6 bits: the slot of the subframe.
    pub slot: u8,
    /// startSymbolId, 6 bits: the maintained symbol number before the first section.
    pub start_symbol: u8,
    /// numberOfSections.
    pub count: u8,
    /// What the section type adds.
    pub body: CBody,
}

/// One section of a C-plane message (O-RAN.WG4.CUS, clause 7.5.3).
#[derive(Clone, Copy, Debug, PartialEq, Eq)]
pub struct CSection {
    /// sectionId, 12 bits.
    pub id: u16,
    /// symInc: whether the maintained symbol number goes up by one for this section and those after it.
    pub sym_inc: bool,
    /// The maintained symbol number: the first symbol that the section covers.
    pub symbol: u8,
    /// startPrbc, 10 bits.
    pub start_prb: u16,
    /// numPrbc; 0 means all PRBs.
    pub num_prb: u8,
    /// reMask, 12 bits.
    pub mask: u16,
    /// numSymbol, 4 bits: how many symbols the section covers.
    pub num_symbol: u8,
    /// beamId, 15 bits; 0 in section type 0, which has none.
    pub beam: u16,
    /// freqOffset, 24 bits with sign, in half subcarriers; 0 but in section type 3.
    pub freq_offset: i32,
}

/// Why a message is refused.
#[derive(Clone, Copy, Debug, PartialEq, Eq, Error)]
pub enum CWhy {
    /// The header or a section is not whole.
    #[error("the message ends too early")]
    Truncated,
    /// payloadVersion is not 1.
    #[error("another version than 1")]
    Version,
    /// sectionType is not 0, 1 or 3.
    #[error("another section type than 0, 1 and 3")]
    SectionType,
    /// subframeId exceeds 9, or a subframe has no slot slotId.
    #[error("no such slot")]
    SlotRange,
    /// A slot has no symbol startSymbolId, or a section covers no symbol or goes past the slot's end.
    #[error("no such symbol")]
    SymbolRange,
    /// numberOfSections is 0.
    #[error("no sections")]
    NoSections,
    /// A section has rb = 1.
    #[error("every other resource block")]
    EveryOtherRb,
    /// A section has ef = 1.
    #[error("a section extension")]
    Extension,
    /// Bytes remain after the last section.
    #[error("bytes after the last section")]
    Trailing,
}

impl CWhy {
    /// The name under which the reason is printed: its own.
    pub fn name(self) -> &'static str
        ensures name { result.now ≡ name_of self }
        ensures short { length result.now ≤ 12 }
    {
        match self {
            CWhy::Truncated => "Truncated",
            CWhy::Version => "Version",
            CWhy::SectionType => "SectionType",
            CWhy::SlotRange => "SlotRange",
            CWhy::SymbolRange => "SymbolRange",
            CWhy::NoSections => "NoSections",
            CWhy::EveryOtherRb => "EveryOtherRb",
            CWhy::Extension => "Extension",
            CWhy::Trailing => "Trailing",
        }
    }
}

/// A refusal of a message.
#[derive(Clone, Copy, Debug, PartialEq, Eq, Error)]
#[error("{why} at byte {place}")]
pub struct CRefusal {
    /// The first byte of the header or section; for `Truncated` the message's length; for `Trailing` where the rest
    /// begins.
    pub place: usize,
    /// The first test that fails.
    pub why: CWhy,
}
