// Lines in the order of their slots.
ghost use Rattle.std.specs.Prelude.{◌≡◌, ℕ, length, take, get_or, ◌<◌, ◌≤◌, false, filter, ◌==◌, List as SpecList, IfOk, OnOk};
ghost use Rattle.std.specs.List.{AllByRecursion};
ghost use Rattle.plan_model.specs.declared.lines.PlannedLine.{PlannedLine as SpecLine};
ghost use Rattle.schedule_laws.specs.SlotOrder.{ArePlannedInOrder, comes_first, slot_cmp};
ghost use Rattle.schedule_laws.specs.SlotTests.{of_home};

use fh_base::NoMemory;
use plan_model::PlannedLine;
use std::alloc::Global;

/// A slot in the order of slots.
#[derive(Clone, Copy, Debug, PartialEq, Eq, PartialOrd, Ord)]
struct SlotKey {
    frame: i64,
    subframe: u8,
    slot: u8,
}

/// The slot of a line.
fn slot_key(p: &PlannedLine) -> SlotKey
    ensures frame { result.frame ≡ p.now.line.slot.frame }
    ensures subframe { result.subframe ≡ p.now.line.slot.subframe }
    ensures slot { result.slot ≡ p.now.line.slot.slot }
{
    SlotKey {
        frame: p.line.slot.frame,
        subframe: p.line.slot.subframe,
        slot: p.line.slot.slot,
    }
}

/// The lines of one endpoint, in the order of the plan.
pub(crate) fn lines_of(
    alloc: Global,
    lines: &[PlannedLine],
    ep: usize,
) -> Result<Vec<PlannedLine>, NoMemory>
    ensures { IfOk result (λ v. v.items ≡ filter (λ p. p.ep == ep) lines.now) }
{
    let mut of_endpoint = Vec::new(alloc);
    for line in lines {
        if line.ep == ep {
            of_endpoint.push(*line)?;
        }
    }
    Ok(of_endpoint)
}

/// Sorts lines by slot; those of one slot stay in their order.
pub(crate) fn sort_by_slot(lines: &mut Vec<PlannedLine>) -> Result<(), NoMemory>
    ensures order { OnOk result (ArePlannedInOrder lines.new.items) }
    ensures homes { (p : SpecLine) → of_home p.ep p.line.slot lines.new.items ≡ of_home p.ep p.line.slot lines.old.items }
{
    lines.sort_by_key(slot_key)?;
    Ok(())
}
