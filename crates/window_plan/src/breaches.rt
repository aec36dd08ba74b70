// What shows that a relation fails.

/// Frames that show that a relation of a delay profile fails, in nanoseconds.
///
/// `sent` and `later` are counted from the start of the symbol that the frames are for: below 0 where the DU sends, as its
/// frames precede their symbol. A frame arrives its delay after it was sent.
#[derive(Clone, Copy, Debug, PartialEq, Eq)]
pub enum Breach {
    /// A frame that is sent in its window and arrives outside the other unit's.
    One {
        sent: i64,
        delay: i64,
    },
    /// Two frames of one message, both sent in their window, that arrive farther apart than the hold.
    Two {
        sent: i64,
        delay: i64,
        later: i64,
        later_delay: i64,
    },
}
