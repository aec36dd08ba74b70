// What the tests build: configurations of one endpoint, and frames of their bytes.
ghost use Rattle.std.specs.Prelude.{◌≡◌, ◌≤◌, [], ◌∷◌};
ghost use Rattle.window_config.specs.Configs.{IsConfig};
ghost use Rattle.window_config.specs.Endpoints.{IsEndpoint};
ghost use Rattle.window_config.specs.Limits.{IsWithinLimits};

use air_source::{AirCell, Side};
use bfp_codec::{Format, Method, Wide};
use eaxc_map::Widths;
use fh_base::{Numerology, Slot, Ticks};
use window_config::{Config, Delays, EndpointConfig, EndpointList};

/// A downlink command: symbol 0 of frame 1, section 1, all elements of PRB 0.
pub(crate) const COMMAND: [u8; 24] = [
    0x10, 0x02, 0x00, 0x14, 0x00, 0x00, 0x00, 0x80, 0x90, 0x01, 0x00, 0x00, 0x01, 0x01, 0x00, 0x00,
    0x00, 0x10, 0x00, 0x01, 0xff, 0xf1, 0x00, 0x00,
];

/// The downlink command's data: the samples (0, 0), (1, -1) and so on.
pub(crate) const DATA: [u8; 64] = [
    0x10, 0x00, 0x00, 0x3c, 0x00, 0x00, 0x00, 0x80, 0x90, 0x01, 0x00, 0x00, 0x00, 0x10, 0x00, 0x01,
    0x00, 0x00, 0x00, 0x00, 0x00, 0x01, 0xff, 0xff, 0x00, 0x02, 0xff, 0xfe, 0x00, 0x03, 0xff, 0xfd,
    0x00, 0x04, 0xff, 0xfc, 0x00, 0x05, 0xff, 0xfb, 0x00, 0x06, 0xff, 0xfa, 0x00, 0x07, 0xff, 0xf9,
    0x00, 0x08, 0xff, 0xf8, 0x00, 0x09, 0xff, 0xf7, 0x00, 0x0a, 0xff, 0xf6, 0x00, 0x0b, 0xff, 0xf5,
];

/// An endpoint whose samples are not compressed.
pub(crate) fn endpoint(id: u16, numerology: Numerology, prbs: u16) -> EndpointConfig
    requires some { 1 ≤ prbs }
    requires most { prbs ≤ 273 }
    ensures endpoint { IsEndpoint result }
    ensures numerology { result.numerology ≡ numerology }
    ensures prbs { result.prbs ≡ prbs }
{
    EndpointConfig {
        id,
        numerology,
        prbs,
        format: Format {
            dynamic: false,
            method: Method::Plain,
        },
    }
}

fn listed(e: EndpointConfig) -> EndpointList
    ensures { result ≡ e ∷ [] }
{
    let mut endpoints = EndpointList::new();
    let _room = endpoints.push(e);
    endpoints
}

/// A configuration of one endpoint.
pub(crate) fn config(e: EndpointConfig, widths: Widths, delays: Delays) -> Config
    requires endpoint { IsEndpoint e }
    requires delays { IsWithinLimits delays }
    ensures config { IsConfig result }
    ensures endpoints { result.endpoints ≡ e ∷ [] }
{
    Config {
        widths,
        delays,
        gap: 1_000,
        fragment: 1_492,
        pack: 1,
        endpoints: listed(e),
    }
}

/// The samples (0, 0), (1, -1) and so on.
pub(crate) fn samples() -> [Wide; 12] {
    let mut samples = [Wide { i: 0, q: 0 }; 12];
    for k in 0..12usize {
        samples[k] = Wide {
            i: k as i32,
            q: -(k as i32),
        };
    }
    samples
}

/// The cell of PRB 0 that section 1 claims, with all its elements.
pub(crate) fn cell(at: Ticks, slot: Slot, symbol: u8, block: Option<[Wide; 12]>) -> AirCell {
    AirCell {
        side: Side::Ru,
        at,
        id: 0,
        slot,
        symbol,
        prb: 0,
        section: 1,
        mask: 0xfff,
        block,
    }
}
