// What is said of an arrival.

/// Where a message is relative to the window of its symbol.
#[derive(Clone, Copy, Debug, PartialEq, Eq)]
pub enum Class {
    /// All of it arrived inside the window.
    OnTime,
    /// Some of it arrived after the window.
    Late,
    /// None of it arrived after the window, and some of it before.
    Early,
}
