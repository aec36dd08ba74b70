// What both units are made from.

use crate::delays::Delays;
use crate::endpoints::EndpointList;
use eaxc_map::Widths;

/// The most sections of a U-plane message where it is sent.
pub const MESSAGE_SECTIONS: usize = 64;

/// The least and the most application bytes of a frame that carries a part of a U-plane message.
pub const LEAST_FRAGMENT: usize = 128;

pub const MOST_FRAGMENT: usize = 9_000;

/// The configuration of both units.
///
/// Within the limits the delays are, the gap lies from 0 to 2,000,000 ns, `fragment` from 128 to 9,000, `pack` from 1 to 64, and
/// each endpoint is within its limits and has an id of its own.
#[derive(Drop)]
pub struct Config {
    /// How an eAxC id is cut into its parts.
    pub widths: Widths,
    pub delays: Delays,
    /// The time between two frames of one symbol, in nanoseconds.
    pub gap: i64,
    /// The most application bytes of a U-plane message that one frame carries.
    pub fragment: usize,
    /// The most sections that one U-plane message has where it is sent.
    pub pack: usize,
    /// The endpoints; an endpoint's index here is its place in all that is told of it.
    pub endpoints: EndpointList,
}
