// Why a plan is refused.

use thiserror::Error;

/// Why a line of a plan is refused.
#[derive(Clone, Copy, Debug, PartialEq, Eq, Error)]
pub enum PlanWhy {
    /// No endpoint has the line's eAxC id.
    #[error("UnknownEndpoint")]
    UnknownEndpoint,
    /// Its slot, its symbols or its PRBs are not all the endpoint's, or it names no symbol or no resource element.
    #[error("Range")]
    Range,
    /// It shares a resource element with an earlier line of its direction, or a cell with one of another section id.
    #[error("Overlap")]
    Overlap,
    /// It is an uplink line, and its endpoint's slot has 64 earlier ones.
    #[error("TooManySections")]
    TooManySections,
    /// A data message that begins with it leaves too near to the one 256 messages before it, which has the same sequence id.
    #[error("SequenceDense")]
    SequenceDense,
}
