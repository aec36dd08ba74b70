// Where cells are.
ghost use Rattle.std.specs.Prelude.{◌≡◌, ◌≤◌, length, true};
ghost use Rattle.pictures.specs.Cells.{IsWithin};
ghost use Rattle.pictures.specs.Areas.{width_of, band_of, area_of};
ghost use Rattle.pictures.specs.Spans.{IsSpan, is_in};

use crate::cells::Cell;
use crate::endpoints::Endpoint;
use crate::frames::duration_of;
use crate::rects::Area;
use crate::sizes::{pixels_of, step_of, top_of};
use crate::spans::{Span, past, x_after};

/// How wide a symbol is from one place to another: one pixel less where it has more than three, and at least one.
fn width_of(from: u32, to: u32) -> u32
    ensures { result ≡ width_of from to }
{
    let whole = to.saturating_sub(from);
    if whole > 3 { whole - 1 } else { whole.max(1) }
}

/// Where the band of cells begins.
fn band_of(endpoints: &[Endpoint], c: &Cell) -> u32
    requires few { length endpoints.now ≤ 16 }
    requires within { IsWithin endpoints.now c.now }
    ensures value { result ≡ band_of endpoints.now c.now }
    ensures small { result ≤ 17301692 }
{
    let top = top_of(endpoints, c.ep);
    if c.up {
        top + step_of(&c.endpoint)
    } else {
        top
    }
}

/// Where cells are: of their PRBs the highest is at the top.
#[tactic(auto, unfolding(crate::specs::Areas::area_of))]
pub(crate) fn area_of(span: Span, endpoints: &[Endpoint], c: &Cell) -> Area
    requires span { IsSpan span }
    requires few { length endpoints.now ≤ 16 }
    requires within { IsWithin endpoints.now c.now }
    requires seen { is_in span c.now.at ≡ true }
    ensures { result ≡ area_of span endpoints.now c.now }
{
    let after = past(span, c.at);
    let x = x_after(span, after);
    let end = x_after(
        span,
        after + duration_of(&c.endpoint.numerology, c.slot, c.symbol),
    );
    let pixels = pixels_of(&c.endpoint);
    let above = u32::from(c.endpoint.prbs - (c.prb + c.num));
    Area {
        x,
        y: band_of(endpoints, c) + pixels * above,
        width: width_of(x, end),
        height: pixels * u32::from(c.num),
    }
}
