// How high the bands are, and where they are.
ghost use Rattle.std.specs.Prelude.{◌≡◌, ◌+◌, ◌*◌, ◌<◌, ◌≤◌, length};
ghost use Rattle.pictures.specs.Sizes.{pixels_of, height_of, step_of, block_of, top_of, legend_of};

use crate::endpoints::Endpoint;

/// How many pixels a PRB is high.
pub(crate) fn pixels_of(e: &Endpoint) -> u32
    ensures value { result ≡ pixels_of e.now }
    ensures low { 1 ≤ result }
    ensures high { result ≤ 8 }
{
    (96 / u32::from(e.prbs).max(1)).min(8).max(1)
}

/// How high a band of an endpoint is.
pub(crate) fn height_of(e: &Endpoint) -> u32
    ensures value { result ≡ height_of e.now }
    ensures small { result ≤ 524280 }
{
    pixels_of(e) * u32::from(e.prbs)
}

/// How far the band after the first of an endpoint begins below it.
pub(crate) fn step_of(e: &Endpoint) -> u32
    ensures value { result ≡ step_of e.now }
    ensures small { result ≤ 524286 }
{
    height_of(e).max(30) + 6
}

/// How far the next endpoint begins below this one.
pub(crate) fn block_of(e: &Endpoint) -> u32
    ensures value { result ≡ block_of e.now }
    ensures small { result ≤ 1048584 }
{
    2 * step_of(e) + 12
}

/// Where the bands of the endpoint with an index begin.
#[tactic(auto, unfolding(crate::specs::Sizes::top_of))]
pub(crate) fn top_of(endpoints: &[Endpoint], ep: usize) -> u32
    requires ep { ep ≤ length endpoints.now }
    requires few { ep ≤ 16 }
    ensures value { result ≡ top_of endpoints.now ep }
    ensures small { result ≤ 62 + ep * 1048584 }
{
    let mut y = 62;
    for i in 0..ep {
        y += block_of(&endpoints[i]);
    }
    y
}

/// Where the legend begins.
pub(crate) fn legend_of(endpoints: &[Endpoint]) -> u32
    requires { length endpoints.now ≤ 16 }
    ensures value { result ≡ legend_of endpoints.now }
    ensures small { result < 16777500 }
{
    top_of(endpoints, endpoints.len()) + 6
}
