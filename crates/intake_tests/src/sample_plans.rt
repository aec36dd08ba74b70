// What an intake is made for: a configuration of one endpoint, and plans of a line or two.
ghost use Rattle.std.specs.Prelude.{◌≡◌, [], ◌∷◌, All, IfOk};
ghost use Rattle.window_config.specs.Configs.{IsConfig};
ghost use Rattle.window_config.specs.Endpoints.{IsEndpoint};
ghost use Rattle.window_config.specs.Limits.{IsWithinLimits};
ghost use Rattle.window_config.specs.Plans.{IsPlanLine};

use bfp_codec::{Format, Method};
use eaxc_map::Widths;
use fh_base::{List, NoMemory, Numerology, Slot};
use std::alloc::Global;
use window_config::{Config, Delays, EndpointConfig, EndpointList, PlanKind, PlanLine};

/// An endpoint with id 0 and 4 PRBs, whose samples are not compressed.
pub fn endpoint(numerology: Numerology) -> EndpointConfig
    ensures endpoint { IsEndpoint result }
    ensures id { result.id ≡ 0 }
    ensures numerology { result.numerology ≡ numerology }
    ensures prbs { result.prbs ≡ 4 }
{
    EndpointConfig {
        id: 0,
        numerology,
        prbs: 4,
        format: Format {
            dynamic: false,
            method: Method::Plain,
        },
    }
}

fn listed(e: EndpointConfig) -> EndpointList
    ensures { result ≡ e ∷ [] }
{
    let mut endpoints = EndpointList::new();
    let _room = endpoints.push(e);
    endpoints
}

/// A configuration of one endpoint.
pub fn config(e: EndpointConfig, widths: Widths, delays: Delays) -> Config
    requires endpoint { IsEndpoint e }
    requires delays { IsWithinLimits delays }
    ensures config { IsConfig result }
    ensures endpoints { result.endpoints ≡ e ∷ [] }
    ensures widths { result.widths ≡ widths }
    ensures delays { result.delays ≡ delays }
{
    Config {
        widths,
        delays,
        gap: 1_000,
        fragment: 1_492,
        pack: 1,
        endpoints: listed(e),
    }
}

/// An uplink line of the endpoint with id 0: symbol 0 of frame 1, PRB 0, all elements, section 5.
pub fn line() -> PlanLine
    ensures { IsPlanLine result }
{
    PlanLine {
        kind: PlanKind::Up,
        id: 0,
        slot: Slot {
            frame: 1,
            subframe: 0,
            slot: 0,
        },
        symbol: 0,
        count: 1,
        start_prb: 0,
        num_prb: 1,
        mask: 0xfff,
        section: 5,
        beam: 0,
    }
}

/// A plan of one line.
pub fn one(alloc: Global, line: PlanLine) -> Result<List<PlanLine>, NoMemory>
    requires { IsPlanLine line }
    ensures lines { IfOk result (λ lines. lines ≡ line ∷ []) }
    ensures ranges { IfOk result (λ lines. All IsPlanLine lines) }
{
    let mut lines = List::new(alloc);
    lines.push(line)?;
    Ok(lines)
}

/// A plan of two lines.
pub fn two(alloc: Global, first: PlanLine, second: PlanLine) -> Result<List<PlanLine>, NoMemory>
    requires first { IsPlanLine first }
    requires second { IsPlanLine second }
    ensures lines { IfOk result (λ lines. lines ≡ first ∷ second ∷ []) }
    ensures ranges { IfOk result (λ lines. All IsPlanLine lines) }
{
    let mut lines = List::new(alloc);
    lines.push(first)?;
    lines.push(second)?;
    Ok(lines)
}
