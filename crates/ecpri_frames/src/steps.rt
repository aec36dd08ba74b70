//! What a decoder answers to a piece of a frame.
use crate::heads::Head;
use crate::refusals::PduRefusal;

/// What the next bytes of a frame tell.
#[derive(Clone, Copy, Debug, PartialEq, Eq)]
pub enum Feed {
    /// The whole piece was used, and there is nothing to tell yet.
    More,
    /// A header is whole. It began 4 bytes before the end of the bytes used so far.
    Message(Head),
    /// The bytes `from..to` of the piece are the next bytes of the payload, at least one.
    Body {
        /// Where they begin in the piece.
        from: usize,
        /// Where they end in the piece.
        to: usize,
        /// Whether the payload ends with them.
        last: bool,
    },
    /// The PDU is over; the piece is not looked at.
    End,
    /// The frame is refused, for its revision; every later call says the same.
    Refused(PduRefusal),
}

/// How many bytes of a piece were used, and what they tell.
#[derive(Clone, Copy, Debug, PartialEq, Eq)]
pub struct PduStep {
    /// The number of bytes used, from the front of the piece.
    pub used: usize,
    /// What they tell.
    pub what: Feed,
}
