// What the tests make: ranges, and configurations whose endpoints have ids that follow one another.
ghost use Rattle.std.specs.Prelude.{◌≡◌, ◌+◌, ◌≤◌, ◌<◌, ◌^◌, length};
ghost use Rattle.window_config.specs.Configs.{IsConfig};
ghost use Rattle.window_config.specs.Endpoints.{IsEndpoint, AreEndpoints};
ghost use Rattle.window_config.specs.Limits.{IsWithinLimits};

use bfp_codec::{Format, Method};
use eaxc_map::Widths;
use fh_base::Numerology;
use window_config::{Config, Delays, EndpointConfig, EndpointList, Range};

pub(crate) fn range(min: i64, max: i64) -> Range
    ensures min { result.min ≡ min }
    ensures max { result.max ≡ max }
{
    Range { min, max }
}

fn endpoint(id: u16, prbs: u16, numerology: Numerology) -> EndpointConfig
    requires some { 1 ≤ prbs }
    requires most { prbs ≤ 273 }
    ensures endpoint { IsEndpoint result }
    ensures id { result.id ≡ id }
{
    EndpointConfig {
        id,
        numerology,
        prbs,
        format: Format {
            dynamic: false,
            method: Method::Plain,
        },
    }
}

fn endpoints(first: u16, prbs: u16, numerologies: &[Numerology]) -> EndpointList
    requires few { length numerologies.now ≤ 16 }
    requires ids { first + 16 < 2 ^ 16 }
    requires some { 1 ≤ prbs }
    requires most { prbs ≤ 273 }
    ensures endpoints { AreEndpoints result }
    ensures length { length result ≡ length numerologies.now }
{
    let mut list = EndpointList::new();
    for k in 0..numerologies.len() {
        let pushed = list
            .push(endpoint(first + k as u16, prbs, numerologies[k]))
            .is_ok();
        prove!(pushed);
    }
    list
}

/// A configuration of endpoints of these numerologies, each with so many PRBs. The first has the id `first`.
pub(crate) fn config(
    widths: Widths,
    delays: Delays,
    first: u16,
    prbs: u16,
    numerologies: &[Numerology],
) -> Config
    requires delays { IsWithinLimits delays }
    requires few { length numerologies.now ≤ 16 }
    requires ids { first + 16 < 2 ^ 16 }
    requires some { 1 ≤ prbs }
    requires most { prbs ≤ 273 }
    ensures config { IsConfig result }
    ensures endpoints { length result.endpoints ≡ length numerologies.now }
{
    Config {
        widths,
        delays,
        gap: 1_000,
        fragment: 1_492,
        pack: 1,
        endpoints: endpoints(first, prbs, numerologies),
    }
}
