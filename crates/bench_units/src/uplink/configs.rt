// The configuration of the radio unit.
ghost use Rattle.std.specs.Prelude.{◌≡◌, ◌≤◌, [], ◌∷◌, IfSome};
ghost use Rattle.bfp_codec.specs.Layout.{HasWidth};
ghost use Rattle.window_config.specs.Configs.{IsConfig};
ghost use Rattle.window_config.specs.Endpoints.{IsEndpoint};

use bfp_codec::{Format, Method};
use eaxc_map::Widths;
use fh_base::Numerology;
use window_config::{Config, Delays, EndpointConfig, EndpointList};

/// 106 PRBs with this compression.
fn endpoint(numerology: Numerology, method: Method) -> EndpointConfig
    requires { HasWidth method }
    ensures { IsEndpoint result }
{
    EndpointConfig {
        id: 0,
        numerology,
        prbs: 106,
        format: Format {
            dynamic: false,
            method,
        },
    }
}

fn listed(e: EndpointConfig) -> EndpointList
    ensures { result ≡ e ∷ [] }
{
    let mut endpoints = EndpointList::new();
    let _room = endpoints.push(e);
    endpoints
}

/// The usual delays and a gap of 1 microsecond, and frames of so many bytes of a message.
fn with(numerology: Numerology, widths: Widths, method: Method, fragment: usize) -> Config
    requires width { HasWidth method }
    requires low { 128 ≤ fragment }
    requires high { fragment ≤ 9000 }
    ensures { IsConfig result }
{
    Config {
        widths,
        delays: Delays::usual(),
        gap: 1_000,
        fragment,
        pack: 1,
        endpoints: listed(endpoint(numerology, method)),
    }
}

/// The compression with mantissas of so many bits, none for 0. None where there are no such.
fn method_of(width: u16) -> Option<Method>
    ensures { IfSome result (λ m. HasWidth m) }
{
    if width == 0 {
        Some(Method::Plain)
    } else if width <= 16 {
        Some(Method::Bfp(width as u8))
    } else {
        None
    }
}

/// A unit of one endpoint at 30 kHz. None where the numbers are not those of a configuration.
pub fn config_of(width: u16, fragment: u16) -> Option<Config>
    ensures { IfSome result (λ c. IsConfig c) }
{
    let method = method_of(width)?;
    let numerology = Numerology::ordinary(1)?;
    let Ok(widths) = Widths::new(4, 4, 4, 4) else {
        return None;
    };
    if fragment < 128 || fragment > 9000 {
        return None;
    }
    Some(with(numerology, widths, method, usize::from(fragment)))
}
