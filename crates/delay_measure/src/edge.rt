// The edges of a unit.

/// The edges of a unit at which a delay is compensated: between a time stamp and the moment at which the message
/// leaves the unit, or enters it.
#[derive(Clone, Copy, Debug, PartialEq, Eq)]
pub enum Edge {
    Sending,
    Receiving,
}

/// The compensation of a unit at each of its edges, in units of 2^-16 ns.
#[derive(Clone, Copy, Debug, PartialEq, Eq)]
pub struct Compensation {
    pub sending: i64,
    pub receiving: i64,
}
