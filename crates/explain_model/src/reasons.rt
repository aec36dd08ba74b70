// Why a cell is missing, or an element silent.

/// Why a cell is missing, or an element silent. A number `from` is that of the arrival which is the cause, and `by` a distance
/// from a window in whole nanoseconds.
#[derive(Clone, Copy, Debug, PartialEq, Eq)]
pub enum Reason {
    /// A block of another section id is there.
    Other { section: u16, from: u32 },
    /// Data that cover it were late.
    Late { by: u64, from: u32 },
    /// Data that cover it were early.
    Early { by: u64, from: u32 },
    /// A message of its symbol was refused.
    Refused { from: u32 },
    /// A message of its symbol was of the other unit's direction.
    WrongWay { from: u32 },
    /// Another message of its symbol was received under a sequence id that was used.
    Repeated { seq: u8, from: u32 },
    /// A message of its symbol never became whole.
    Unfinished { seq: u8, pieces: usize, from: u32 },
    /// A command that names it is not the endpoint's.
    CommandMismatch { from: u32 },
    /// A command that names it was late.
    CommandLate { by: u64, from: u32 },
    /// A command that names it was early.
    CommandEarly { by: u64, from: u32 },
    /// A command that names it goes past the carrier.
    CommandRange { from: u32 },
    /// A command that names it claimed nothing new.
    CommandRepeat { from: u32 },
    /// A command that names it named an element that was claimed.
    CommandOverlap { from: u32 },
    /// A command that names it found no room in its slot.
    CommandFull { from: u32 },
    /// Nothing was received; at the distributed unit, though an accepted command asked for it.
    NoData { from: Option<u32> },
    /// No command names it.
    NoCommand,
}

/// The first word of a reason.
#[derive(Clone, Copy, Debug, PartialEq, Eq)]
pub enum ReasonWord {
    Other,
    Late,
    Early,
    Refused,
    WrongWay,
    Repeated,
    Unfinished,
    CommandMismatch,
    CommandLate,
    CommandEarly,
    CommandRange,
    CommandRepeat,
    CommandOverlap,
    CommandFull,
    NoData,
    NoCommand,
}
