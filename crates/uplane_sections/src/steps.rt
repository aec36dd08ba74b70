//! What a walker answers to a piece of a message.
use crate::values::{UHead, URefusal, USection};
use bfp_codec::{Method, Wide};

/// What the next bytes of a message tell.
#[derive(Clone, Copy, Debug, PartialEq, Eq)]
pub enum UFeed {
    /// Nothing yet, and all of the piece is used.
    More,
    /// The header.
    Head(UHead),
    /// The header of the next section.
    Section(USection),
    /// The next PRB of the section, unpacked.
    Block {
        /// Its number on the carrier.
        prb: u16,
        /// Its samples, in the order of subcarriers.
        samples: [Wide; 12],
    },
    /// The message is refused; every later call says the same.
    Refused(URefusal),
}

/// How many bytes of a piece were used, and what they tell.
#[derive(Clone, Copy, Debug, PartialEq, Eq)]
pub struct UStep {
    /// The number of bytes used, from the front of the piece.
    pub used: usize,
    /// What they tell.
    pub what: UFeed,
}

/// The packed PRBs of a section that are next and lie completely in a piece, from its front.
#[derive(Clone, Copy, Debug, PartialEq, Eq)]
pub struct URun {
    /// How they are packed; each has as many bytes as `block_len` says for it.
    pub method: Method,
    /// The number of the first on the carrier; the others have the numbers after it.
    pub prb: u16,
    /// How many there are.
    pub count: u16,
    /// The number of their bytes, all used.
    pub used: usize,
}
