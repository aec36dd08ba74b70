// Plans of many uplink lines.
ghost use Rattle.std.specs.Prelude.{All, OnOk, IfOk};
ghost use Rattle.window_config.specs.Plans.{IsPlanLine};

use fh_base::{List, NoMemory, Slot, shape};
use std::alloc::Global;
use window_config::{EndpointConfig, PlanKind, PlanLine};

/// The line of all cells of an endpoint's slot, counted from the first one of frame 1 on.
fn line(endpoint: &EndpointConfig, number: u32) -> PlanLine
    ensures { IsPlanLine result }
{
    let shape = shape(&endpoint.numerology);
    let slots = u32::from(shape.slots.max(1));
    PlanLine {
        kind: PlanKind::Up,
        id: endpoint.id,
        slot: Slot {
            frame: 1 + i64::from(number / slots / 10 % 90_000),
            subframe: (number / slots % 10) as u8,
            slot: (number % slots % 64) as u8,
        },
        symbol: 0,
        count: shape.symbols.min(14),
        start_prb: 0,
        num_prb: 0,
        mask: 0xfff,
        section: 1,
        beam: 0,
    }
}

/// Appends the lines of all endpoints in a slot.
fn put_slot(
    lines: &mut List<PlanLine>,
    endpoints: &[EndpointConfig],
    number: u32,
) -> Result<(), NoMemory>
    requires { All IsPlanLine lines.old }
    ensures { OnOk result (All IsPlanLine lines.new) }
{
    for endpoint in endpoints {
        lines.push(line(endpoint, number))?;
    }
    Ok(())
}

/// A plan of each `step`-th slot, so many slots in all.
pub fn lines(
    alloc: Global,
    endpoints: &[EndpointConfig],
    planned: u16,
    step: u16,
) -> Result<List<PlanLine>, NoMemory>
    ensures { IfOk result (λ plan. All IsPlanLine plan) }
{
    let mut plan = List::new(alloc);
    for k in 0..planned {
        put_slot(&mut plan, endpoints, u32::from(k) * u32::from(step))?;
    }
    Ok(plan)
}
