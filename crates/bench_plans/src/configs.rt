// What the plans are based on: endpoints, the configuration, and a line of a complete slot.
ghost use Rattle.std.specs.Prelude.{◌≡◌, ◌<◌, ◌≤◌, ◌≤ℤ◌, ◌^◌, ◌∷◌, [], pos, IfSome};
ghost use Rattle.window_config.specs.Configs.{IsConfig};
ghost use Rattle.window_config.specs.Endpoints.{AreEndpoints, IsEndpoint};
ghost use Rattle.window_config.specs.Plans.{IsPlanLine};

use bfp_codec::{Format, Method};
use eaxc_map::Widths;
use fh_base::{Numerology, Slot};
use window_config::{Config, Delays, EndpointConfig, EndpointList, PlanKind, PlanLine};

/// An endpoint of so many PRBs, with mantissas of 9 bits.
pub fn endpoint(id: u16, numerology: Numerology, prbs: u16) -> EndpointConfig
    requires some { 1 ≤ prbs }
    requires few { prbs ≤ 273 }
    ensures endpoint { IsEndpoint result }
    ensures id { result.id ≡ id }
{
    EndpointConfig {
        id,
        numerology,
        prbs,
        format: Format {
            dynamic: false,
            method: Method::Bfp(9),
        },
    }
}

/// One endpoint.
pub fn listed(endpoint: EndpointConfig) -> EndpointList
    ensures { result ≡ endpoint ∷ [] }
{
    let mut endpoints = EndpointList::new();
    let _room = endpoints.push(endpoint);
    endpoints
}

/// The configuration of these endpoints, with the usual times, and frames of at most so many application bytes of data.
pub fn config(endpoints: EndpointList, fragment: usize) -> Option<Config>
    requires endpoints { AreEndpoints endpoints }
    requires least { 128 ≤ fragment }
    requires most { fragment ≤ 9000 }
    ensures { IfSome result (λ c. IsConfig c) }
{
    let widths = match Widths::new(4, 4, 4, 4) {
        Ok(widths) => widths,
        Err(_) => return None,
    };
    Some(Config {
        widths,
        delays: Delays::usual(),
        gap: 1_000,
        fragment,
        pack: 1,
        endpoints,
    })
}

/// A downlink line of all symbols and PRBs in a slot.
pub fn whole(id: u16, slot: Slot, section: u16) -> PlanLine
    requires frame_low { pos 1 ≤ℤ slot.frame }
    requires frame_high { slot.frame ≤ℤ pos 99999 }
    requires subframe { slot.subframe < 10 }
    requires slot { slot.slot < 2 ^ 6 }
    requires section { section < 2 ^ 12 }
    ensures { IsPlanLine result }
{
    PlanLine {
        kind: PlanKind::Down,
        id,
        slot,
        symbol: 0,
        count: 14,
        start_prb: 0,
        num_prb: 0,
        mask: 0xfff,
        section,
        beam: 0,
    }
}
