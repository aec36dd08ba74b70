// What orders the frames that wait.
use fh_base::Ticks;

/// Where a frame that waits is: frames leave by time, at one time by endpoint, and those of an endpoint as they were handed over.
#[derive(Clone, Copy, Debug, PartialEq, Eq, PartialOrd, Ord)]
pub struct Turn {
    /// When the frame leaves, in ticks of 1/1536 ns.
    pub at: Ticks,
    /// The number of its endpoint in the configuration, from 0.
    pub ep: usize,
    /// How many frames were taken in before it.
    pub serial: u64,
}
