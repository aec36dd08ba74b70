// Results of delay measurement.

/// A delay that a unit's measurement gave.
#[derive(Clone, Copy, Debug, PartialEq, Eq)]
pub struct DelayResult {
    /// The measurement id.
    pub id: u8,
    /// The delay, in units of 2^-16 ns.
    pub value: i128,
}
