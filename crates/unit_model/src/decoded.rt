// The sections of messages that were read.
use bfp_codec::Wide;
use cplane_sections::{CHead, CSection};
use fh_base::{List, Ticks};
use uplane_sections::{UHead, USection};
use window_config::EndpointConfig;

/// One section of a C-plane message that arrived.
#[derive(Clone, Copy, Debug, PartialEq, Eq)]
pub struct ControlSection {
    /// The endpoint's index in the configuration.
    pub ep: usize,
    pub endpoint: EndpointConfig,
    /// When the message arrived.
    pub at: Ticks,
    pub head: CHead,
    pub section: CSection,
}

/// One section of a U-plane message that became whole.
#[derive(Drop)]
pub struct UserSection {
    /// The endpoint's index in the configuration.
    pub ep: usize,
    pub endpoint: EndpointConfig,
    /// When the first of the message's fragments arrived.
    pub first: Ticks,
    /// When the last of them arrived.
    pub last: Ticks,
    pub head: UHead,
    pub section: USection,
    /// The samples of its PRBs, in the order of PRBs.
    pub blocks: List<[Wide; 12]>,
}
