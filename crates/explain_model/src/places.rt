// Where the things are of which a line speaks.

use air_source::Side;
use ecpri_fragments::SeqField;
use fh_base::{Slot, Ticks};

/// A symbol of an endpoint.
#[derive(Clone, Copy, Debug, PartialEq, Eq)]
pub struct SymbolPlace {
    /// The eAxC id of the endpoint.
    pub id: u16,
    pub slot: Slot,
    /// The symbol in the slot, from 0.
    pub symbol: u8,
}

/// PRBs that follow one another, in one symbol and under one section id.
#[derive(Clone, Copy, Debug, PartialEq, Eq)]
pub struct PrbRun {
    /// The unit that reports the cells.
    pub side: Side,
    /// The start of the symbol on the air.
    pub at: Ticks,
    pub place: SymbolPlace,
    /// The first PRB.
    pub prb: u16,
    /// How many PRBs there are.
    pub num: u32,
    /// The section id.
    pub section: u16,
}

/// A message of type 0 or 2 of a frame.
#[derive(Clone, Copy, Debug, PartialEq, Eq)]
pub struct MessagePlace {
    /// The number of the arrival, from 1.
    pub number: u32,
    /// The eAxC id that the message has.
    pub id: u16,
    /// The byte of the frame where the message's eCPRI header begins.
    pub place: usize,
    pub seq: SeqField,
}

/// How far a section is from the two ends of its window, in whole nanoseconds; below 0 beyond an end.
#[derive(Clone, Copy, Debug, PartialEq, Eq)]
pub struct Timing {
    /// From the opening of the window to the first arrival of its message.
    pub since: i64,
    /// From the last arrival of its message to the closing of the window.
    pub until: i64,
}

/// The first cell of an overlapping section that is claimed already.
#[derive(Clone, Copy, Debug, PartialEq, Eq)]
pub struct Clash {
    /// The section id under which it is claimed.
    pub section: u16,
    pub symbol: u8,
    pub prb: u16,
}
