// What a section names.
use fh_base::Slot;
use window_config::EndpointConfig;

/// The resource elements that a section of the C-plane, or a line of a plan, names for its data.
#[derive(Clone, Copy, Debug, PartialEq, Eq)]
pub struct Allocation {
    /// The endpoint's index in the configuration.
    pub ep: usize,
    pub endpoint: EndpointConfig,
    /// Whether it is for the downlink.
    pub down: bool,
    /// Whether nothing is radiated or received there (section type 0).
    pub idle: bool,
    pub slot: Slot,
    /// The first symbol.
    pub symbol: u8,
    /// How many symbols.
    pub num_symbol: u8,
    /// The first PRB, which is not looked at where `num_prb` is 0.
    pub start_prb: u16,
    /// How many PRBs; 0 is all of the carrier's.
    pub num_prb: u8,
    /// reMask: its resource elements in each PRB, element 0 in the most significant of 12 bits.
    pub mask: u16,
    /// sectionId.
    pub section: u16,
    /// filterIndex.
    pub filter: u8,
}
