// A frame of a list.
use fh_base::Ticks;

/// A listed frame: its time in ticks, and its place in the list, counted from 0.
#[derive(Clone, Copy, Debug, PartialEq, Eq)]
pub struct Landing {
    pub at: Ticks,
    pub index: usize,
}
