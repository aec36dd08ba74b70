// What is said of a decoded section.

/// The verdict on a section of a C-plane message: the first that holds, in this order.
#[derive(Clone, Copy, Debug, PartialEq, Eq)]
pub enum CommandVerdict {
    /// Its section type, timeOffset, spacing or cpLength is not the endpoint's.
    Mismatch,
    /// Its message was received after the window of the symbol startSymbolId.
    Late,
    /// Its message was received before that window.
    Early,
    /// It names PRBs that the carrier does not have.
    Range,
    /// Each element that it names is claimed already, in a cell of its section id.
    Repeat,
    /// It names an element that is claimed, or a cell of another section id.
    Overlap,
    /// It is an uplink section, and its slot holds as many accepted ones as a slot may.
    Full,
    /// Its elements are claimed under its section id.
    Accepted,
}

/// The verdict on a section of a U-plane message: the first that holds, in this order.
#[derive(Clone, Copy, Debug, PartialEq, Eq)]
pub enum DataVerdict {
    /// Its message was received after the window of its symbol.
    Late,
    /// Its message was received before that window.
    Early,
    /// Each of its cells has a block already.
    Repeat,
    /// Each of its cells that had no block has its block now.
    Taken,
}
