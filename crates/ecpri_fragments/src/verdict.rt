// What a fragment is in its generation.

/// What a fragment is in its generation, by the first rule that holds: Repeat, Stray, TooLong, Whole, Stored.
#[derive(Clone, Copy, Debug, PartialEq, Eq)]
pub enum Verdict {
    /// It is stored there, and the message is not complete yet.
    Stored,
    /// It is stored there, and the message is complete now.
    Whole,
    /// A duplicate: one with its subsequence is stored, or the message was complete before it was received.
    Repeat,
    /// Its subsequence and the one with E = 1 contradict each other.
    Stray,
    /// With it there would be more than 16,384 bytes.
    TooLong,
}
