// Cells of several endpoints, marked in turn.
ghost use Rattle.std.specs.Prelude.{◌≡◌, ◌<◌, ◌≤◌, length};
ghost use Rattle.window_config.specs.Endpoints.{IsEndpoint, AreEndpoints};
ghost use Rattle.idle_spans.specs.Tables.{endpoints_of};

use crate::cells::numbered::cell;
use air_source::{AirCell, Side};
use bfp_codec::{Format, Method};
use eaxc_map::Widths;
use fh_base::Numerology;
use idle_spans::Spans;
use std::alloc::Global;
use window_config::{Config, Delays, EndpointConfig, EndpointList};

fn endpoint(id: u8, numerology: Numerology) -> EndpointConfig
    ensures endpoint { IsEndpoint result }
    ensures id { result.id ≡ id }
{
    EndpointConfig {
        id: u16::from(id),
        numerology,
        prbs: 106,
        format: Format {
            dynamic: false,
            method: Method::Plain,
        },
    }
}

/// Endpoints with the ids 0, 1 and so on.
fn endpoints(numerology: Numerology, count: u8) -> EndpointList
    requires { count ≤ 16 }
    ensures endpoints { AreEndpoints result }
    ensures length { length result ≡ count }
{
    let mut list = EndpointList::new();
    for id in 0..count {
        let pushed = list.push(endpoint(id, numerology)).is_ok();
        prove!(pushed);
    }
    list
}

/// The cell of the radio unit that is marked after k others: the endpoints take turns, and after the last one the next cell follows.
fn turn(k: u32, endpoints: u8) -> AirCell
    requires { 0 < endpoints }
{
    let mut cell = cell(29_680 + k / u32::from(endpoints) % 29_680);
    cell.side = Side::Ru;
    cell.id = (k % u32::from(endpoints)) as u16;
    cell
}

fn mark_all(spans: &mut Spans, count: u32, endpoints: u8)
    requires { 0 < endpoints }
    ensures { endpoints_of spans.new ≡ endpoints_of spans.old }
{
    for k in 0..count {
        spans.mark(&turn(k, endpoints));
    }
}

/// The symbols of the first silent span of endpoint 0, 0 where there is none. None where memory ran out, or where there are no
/// endpoints or more than 16.
pub fn run(alloc: Global, count: u32, endpoints: u8) -> Option<i64> {
    if endpoints == 0 || endpoints > 16 {
        return None;
    }
    let config = Config {
        widths: Widths::new(4, 4, 4, 4).ok()?,
        delays: Delays::usual(),
        gap: 1_000,
        fragment: 1_492,
        pack: 1,
        endpoints: self::endpoints(Numerology::ordinary(1)?, endpoints),
    };
    let mut spans = Spans::make(alloc, &config, 1, 1).ok()?;
    mark_all(&mut spans, count, endpoints);
    match spans.next(0, None, 1) {
        Some(span) => Some(i64::from(span.symbols)),
        None => Some(0),
    }
}
