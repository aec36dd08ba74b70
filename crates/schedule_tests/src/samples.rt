// What the tests build: configurations of one endpoint, and frames of their bytes.
ghost use Rattle.std.specs.Prelude.{◌≡◌, ◌≤◌, ◌≤ℤ◌, pos, [], ◌∷◌};
ghost use Rattle.window_config.specs.Configs.{IsConfig};
ghost use Rattle.window_config.specs.Endpoints.{IsEndpoint};
ghost use Rattle.window_config.specs.Limits.{IsTime, IsWithinLimits};

use bfp_codec::{Format, Method};
use eaxc_map::Widths;
use fh_base::Numerology;
use window_config::{Config, Delays, EndpointConfig, EndpointList, Range};

/// So many PRBs, whose samples are not compressed.
pub(crate) fn endpoint(numerology: Numerology, prbs: u16) -> EndpointConfig
    requires some { 1 ≤ prbs }
    requires most { prbs ≤ 273 }
    ensures { IsEndpoint result }
{
    EndpointConfig {
        id: 0,
        numerology,
        prbs,
        format: Format {
            dynamic: false,
            method: Method::Plain,
        },
    }
}

/// The same, where each section says its compression: block floating point of 16 bits.
pub(crate) fn dynamic_endpoint(numerology: Numerology, prbs: u16) -> EndpointConfig
    requires some { 1 ≤ prbs }
    requires most { prbs ≤ 273 }
    ensures { IsEndpoint result }
{
    EndpointConfig {
        id: 0,
        numerology,
        prbs,
        format: Format {
            dynamic: true,
            method: Method::Bfp(16),
        },
    }
}

fn listed(e: EndpointConfig) -> EndpointList
    ensures { result ≡ e ∷ [] }
{
    let mut endpoints = EndpointList::new();
    let _room = endpoints.push(e);
    endpoints
}

/// The usual delays, with Ta3 from 50 us to this time.
fn delays(most: i64) -> Delays
    requires low { pos 50000 ≤ℤ most }
    requires high { most ≤ℤ pos 2000000 }
    ensures { IsWithinLimits result }
{
    Delays {
        ta3: Range {
            min: 50_000,
            max: most,
        },
        ..Delays::usual()
    }
}

/// A configuration of one endpoint, with this gap between frames, up to this time after a symbol, and so many sections in a message.
pub(crate) fn config_of(
    endpoint: EndpointConfig,
    widths: Widths,
    gap: i64,
    most: i64,
    pack: usize,
) -> Config
    requires endpoint { IsEndpoint endpoint }
    requires gap { IsTime gap }
    requires low { pos 50000 ≤ℤ most }
    requires high { most ≤ℤ pos 2000000 }
    requires some { 1 ≤ pack }
    requires few { pack ≤ 64 }
    ensures config { IsConfig result }
{
    Config {
        widths,
        delays: delays(most),
        gap,
        fragment: 1_492,
        pack,
        endpoints: listed(endpoint),
    }
}

/// The same with 106 PRBs.
pub(crate) fn config(
    numerology: Numerology,
    widths: Widths,
    gap: i64,
    most: i64,
    pack: usize,
) -> Config
    requires gap { IsTime gap }
    requires low { pos 50000 ≤ℤ most }
    requires high { most ≤ℤ pos 2000000 }
    requires some { 1 ≤ pack }
    requires few { pack ≤ 64 }
    ensures config { IsConfig result }
{
    config_of(endpoint(numerology, 106), widths, gap, most, pack)
}

/// An uplink command: symbol 0 of frame 1, filterIndex 3, section 5, all elements of PRB 2.
pub(crate) const ONE_PRB: [u8; 24] = [
    0x10, 0x02, 0x00, 0x14, 0x00, 0x00, 0x00, 0x80, 0x13, 0x01, 0x00, 0x00, 0x01, 0x01, 0x00, 0x00,
    0x00, 0x50, 0x02, 0x01, 0xff, 0xf1, 0x00, 0x00,
];

/// The same for four of its elements.
pub(crate) const FOUR_ELEMENTS: [u8; 24] = [
    0x10, 0x02, 0x00, 0x14, 0x00, 0x00, 0x00, 0x80, 0x13, 0x01, 0x00, 0x00, 0x01, 0x01, 0x00, 0x00,
    0x00, 0x50, 0x02, 0x01, 0x00, 0xf1, 0x00, 0x00,
];

/// Symbol 0 of frame 1: section 5 of PRB 1, and section 6 of PRB 0.
pub(crate) const TWO_PRBS: [u8; 32] = [
    0x10, 0x02, 0x00, 0x1c, 0x00, 0x00, 0x00, 0x80, 0x10, 0x01, 0x00, 0x00, 0x02, 0x01, 0x00, 0x00,
    0x00, 0x50, 0x01, 0x01, 0xff, 0xf1, 0x00, 0x00, 0x00, 0x60, 0x00, 0x01, 0xff, 0xf1, 0x00, 0x00,
];

/// Symbol 0 of frame 1: section 5 of the PRBs 0 to 49, and section 6 of the PRBs 50 to 99.
pub(crate) const TWO_HALVES: [u8; 32] = [
    0x10, 0x02, 0x00, 0x1c, 0x00, 0x00, 0x00, 0x80, 0x10, 0x01, 0x00, 0x00, 0x02, 0x01, 0x00, 0x00,
    0x00, 0x50, 0x00, 0x32, 0xff, 0xf1, 0x00, 0x00, 0x00, 0x60, 0x32, 0x32, 0xff, 0xf1, 0x00, 0x00,
];

/// The samples (k, -k) of twelve elements as 48 bytes.
pub(crate) const SAMPLES: [u8; 48] = [
    0x00, 0x00, 0x00, 0x00, 0x00, 0x01, 0xff, 0xff, 0x00, 0x02, 0xff, 0xfe, 0x00, 0x03, 0xff, 0xfd,
    0x00, 0x04, 0xff, 0xfc, 0x00, 0x05, 0xff, 0xfb, 0x00, 0x06, 0xff, 0xfa, 0x00, 0x07, 0xff, 0xf9,
    0x00, 0x08, 0xff, 0xf8, 0x00, 0x09, 0xff, 0xf7, 0x00, 0x0a, 0xff, 0xf6, 0x00, 0x0b, 0xff, 0xf5,
];
