// The tests of a line by itself.
ghost use Rattle.std.specs.Prelude.{◌≡◌, ◌<◌, length, slice_get, IfOk, Some};
ghost use Rattle.schedule_laws.specs.PlacedLines.{placed_from, placing, stopped_from};
ghost use Rattle.plan_model.specs.Lines.{planned_at};

use fh_base::{List, NoMemory};
use plan_model::{PlanWhy, PlannedLine, is_out_of_range, planned_line};
use std::alloc::Global;
use window_config::{EndpointConfig, PlanLine};

/// The lines up to the first that is refused by itself, and that one's place with the reason.
#[derive(Drop)]
pub(crate) struct Placed {
    pub(crate) lines: Vec<PlannedLine>,
    pub(crate) stop: Option<(usize, PlanWhy)>,
}

/// One of a list's lines.
fn line_at(lines: &List<PlanLine>, k: usize) -> PlanLine
    requires { k < length lines.now }
    ensures { slice_get lines.now k ≡ Some result }
{
    match lines.get(k) {
        Some(line) => *line,
        None => unreachable!(),
    }
}

/// A line at its endpoint, or why it is refused by itself.
fn place(
    endpoints: &[EndpointConfig],
    index: usize,
    line: &PlanLine,
) -> Result<PlannedLine, PlanWhy>
    ensures { result ≡ placing (planned_at endpoints.now index line.now) }
{
    match planned_line(endpoints, index, line) {
        None => Err(PlanWhy::UnknownEndpoint),
        Some(planned) => {
            if is_out_of_range(&planned.endpoint, &planned.line) {
                Err(PlanWhy::Range)
            } else {
                Ok(planned)
            }
        }
    }
}

/// The lines of a plan at their endpoints, up to the first that is refused by itself.
pub(crate) fn place_lines(
    alloc: Global,
    endpoints: &[EndpointConfig],
    lines: &List<PlanLine>,
) -> Result<Placed, NoMemory>
    ensures lines { IfOk result (λ p. p.lines.items ≡ placed_from endpoints.now 0 lines.now) }
    ensures stop { IfOk result (λ p. p.stop ≡ stopped_from endpoints.now 0 lines.now) }
{
    let mut placed = Vec::new(alloc);
    for index in 0..lines.len() {
        let line = line_at(lines, index);
        match place(endpoints, index, &line) {
            Ok(planned) => placed.push(planned)?,
            Err(why) => {
                return Ok(Placed {
                    lines: placed,
                    stop: Some((index, why)),
                });
            }
        }
    }
    Ok(Placed {
        lines: placed,
        stop: None,
    })
}
