// The keys by which a network holds its arrivals.
ghost use Rattle.std.specs.Prelude.{◌≡◌};
ghost use Rattle.frame_ways.specs.Places.{place_of};

use crate::arrivals::{Arrival, ArrivalKey};
use air_source::Side;
use fh_base::Ticks;

/// Where an arrival is.
#[derive(Clone, Copy, Debug, PartialEq, Eq, PartialOrd, Ord)]
pub struct Place {
    pub at: Ticks,
    pub to_du: bool,
    pub key: ArrivalKey,
}

/// Where an arrival is, and which call put it there.
#[derive(Clone, Copy, Debug, PartialEq, Eq, PartialOrd, Ord)]
pub struct Turn {
    pub place: Place,
    pub serial: u64,
}

/// The place of an arrival.
pub fn place_of(arrival: &Arrival) -> Place
    ensures { result ≡ place_of arrival.now }
{
    Place {
        at: arrival.at,
        to_du: match arrival.side {
            Side::Ru => false,
            Side::Du => true,
        },
        key: arrival.key,
    }
}
