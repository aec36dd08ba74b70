// Cells, and what is said of them.
use bfp_codec::Wide;
use fh_base::Slot;

/// One PRB in one symbol of an endpoint, in one direction.
#[derive(Clone, Copy, Debug, PartialEq, Eq)]
pub struct Cell {
    /// The endpoint's index in the configuration.
    pub ep: usize,
    /// Whether it is of the downlink.
    pub down: bool,
    pub slot: Slot,
    pub symbol: u8,
    pub prb: u16,
}

/// That an element of a cell is claimed.
#[derive(Clone, Copy, Debug, PartialEq, Eq)]
pub struct Claim {
    /// The section id under which it is.
    pub id: u16,
    /// Whether it is as idle.
    pub idle: bool,
}

/// The samples that data gave a cell.
#[derive(Clone, Copy, Debug, PartialEq, Eq)]
pub struct Block {
    /// The id of the section that gave them.
    pub id: u16,
    pub samples: [Wide; 12],
}
