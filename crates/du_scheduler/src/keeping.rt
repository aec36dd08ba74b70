// The lines of a plan at their endpoints.
ghost use Rattle.std.specs.Prelude.{◌≡◌, ◌<◌, ◌++◌, length, slice_get, IfOk, OnOk, Some};
ghost use Rattle.std.specs.Option.{option_to_list};
ghost use Rattle.plan_model.specs.Lines.{planned};

use fh_base::{List, NoMemory};
use plan_model::{PlannedLine, planned_line};
use std::alloc::Global;
use window_config::{EndpointConfig, PlanLine};

/// One of a list's lines.
fn line_at(lines: &List<PlanLine>, k: usize) -> PlanLine
    requires { k < length lines.now }
    ensures { slice_get lines.now k ≡ Some result }
{
    match lines.get(k) {
        Some(line) => *line,
        None => unreachable!(),
    }
}

/// Appends the line, where there is one.
fn keep(all: &mut Vec<PlannedLine>, line: Option<PlannedLine>) -> Result<(), NoMemory>
    ensures { OnOk result (all.new.items ≡ all.old.items ++ option_to_list line) }
{
    if let Some(p) = line {
        all.push(p)?;
    }
    Ok(())
}

/// The lines at their endpoints; those whose endpoints are unknown are left out.
pub fn planned_lines(
    alloc: Global,
    endpoints: &[EndpointConfig],
    lines: &List<PlanLine>,
) -> Result<Vec<PlannedLine>, NoMemory>
    ensures { IfOk result (λ v. v.items ≡ planned endpoints.now lines.now) }
{
    let mut all = Vec::with_capacity(alloc, lines.len())?;
    for index in 0..lines.len() {
        let line = line_at(lines, index);
        keep(&mut all, planned_line(endpoints, index, &line))?;
    }
    Ok(all)
}
