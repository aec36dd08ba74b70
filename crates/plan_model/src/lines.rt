// A line of a plan at its endpoint.
ghost use Rattle.std.specs.Prelude.{◌≡◌, All, IfSome};
ghost use Rattle.unit_model.specs.Claims.{first_prb, prb_count};
ghost use Rattle.unit_model.specs.Proper.{IsAt};
ghost use Rattle.plan_model.specs.Lines.{line_allocation, is_down_kind, is_idle_kind, planned_at};
ghost use Rattle.plan_model.specs.Validity.{is_out_of_range};

use fh_base::{PrbSpan, is_outside, shape};
use unit_model::Allocation;
use window_config::{EndpointConfig, PlanKind, PlanLine};

/// A line of a plan with its place in the list of lines and its endpoint.
#[derive(Clone, Copy, Debug, PartialEq, Eq)]
pub struct PlannedLine {
    /// Its place in the list of lines, from 0.
    pub index: usize,
    /// The endpoint's index in the configuration.
    pub ep: usize,
    pub endpoint: EndpointConfig,
    pub line: PlanLine,
}

impl PlannedLine {
    /// The PRBs of its carrier that it names.
    pub fn prbs(&self) -> PrbSpan
        ensures first { result.first ≡ first_prb (line_allocation self.now) }
        ensures count { result.count ≡ prb_count (line_allocation self.now) }
    {
        PrbSpan::named(self.line.start_prb, self.line.num_prb, self.endpoint.prbs)
    }
}

/// The line with this place in the list, at the endpoint with its eAxC id. None exactly where no endpoint has it.
pub fn planned_line(
    endpoints: &[EndpointConfig],
    index: usize,
    line: &PlanLine,
) -> Option<PlannedLine>
    ensures value { result ≡ planned_at endpoints.now index line.now }
    ensures at { IfSome result (λ p. IsAt endpoints.now p.ep p.endpoint) }
{
    for (ep, endpoint) in endpoints.iter().enumerate() {
        if endpoint.id == line.id {
            return Some(PlannedLine {
                index,
                ep,
                endpoint: *endpoint,
                line: *line,
            });
        }
    }
    None
}

/// Whether a line is for the downlink.
fn is_down(kind: PlanKind) -> bool
    ensures { result ≡ is_down_kind kind }
{
    match kind {
        PlanKind::Down | PlanKind::Idle => true,
        PlanKind::Up => false,
    }
}

/// Whether nothing is radiated on what a line names.
fn is_idle(kind: PlanKind) -> bool
    ensures { result ≡ is_idle_kind kind }
{
    match kind {
        PlanKind::Down | PlanKind::Up => false,
        PlanKind::Idle => true,
    }
}

/// What a line names, as a section of a command does (O-RAN.WG4.CUS, C-plane sections); its filterIndex is 0.
pub fn line_allocation(p: &PlannedLine) -> Allocation
    ensures { result ≡ line_allocation p.now }
{
    Allocation {
        ep: p.ep,
        endpoint: p.endpoint,
        down: is_down(p.line.kind),
        idle: is_idle(p.line.kind),
        slot: p.line.slot,
        symbol: p.line.symbol,
        num_symbol: p.line.count,
        start_prb: p.line.start_prb,
        num_prb: p.line.num_prb,
        mask: p.line.mask,
        section: p.line.section,
        filter: 0,
    }
}

/// Whether an endpoint has not all that a line names, or the line names no symbol or no resource element.
pub fn is_out_of_range(e: &EndpointConfig, line: &PlanLine) -> bool
    ensures { result ≡ is_out_of_range e.now line.now }
{
    let shape = shape(&e.numerology);
    shape.slots <= line.slot.slot
        || line.count == 0
        || u16::from(shape.symbols) < u16::from(line.symbol) + u16::from(line.count)
        || is_outside(line.start_prb, line.num_prb, e.prbs)
        || line.mask == 0
}
