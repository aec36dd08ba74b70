// The uplink lines of a plan, as the unit keeps them.
ghost use Rattle.std.specs.Prelude.{◌≡◌, ℕ, IfOk, OnOk, map};
ghost use Rattle.fh_base.specs.declared.values.Slot.{Slot as SpecSlot};
ghost use Rattle.plan_model.specs.Lines.{line_allocation};
ghost use Rattle.du_intake.specs.Lines.{AreLinesInOrder, line_of, lines_at, same_home};
ghost use Rattle.plan_model.specs.Lines.{uplink_allocations};
ghost use Rattle.plan_model.specs.Lines.{is_up_line};

use fh_base::{NoMemory, Slot};
use plan_model::PlannedLine;
use std::alloc::Global;
use unit_model::same_slot;
use window_config::PlanKind;

/// What an uplink line of a plan names.
#[derive(Clone, Copy, Debug, PartialEq, Eq)]
pub struct UplinkLine {
    /// The endpoint's index in the configuration.
    pub ep: usize,
    pub slot: Slot,
    /// The first PRB.
    pub first_prb: u16,
    /// How many PRBs.
    pub prbs: u16,
    /// reMask: its resource elements in each PRB, element 0 in the most significant of 12 bits.
    pub mask: u16,
    /// sectionId.
    pub section: u16,
    /// The first symbol.
    pub symbol: u8,
    /// How many symbols.
    pub num_symbol: u8,
}

/// What a slot of an endpoint is sorted by.
#[derive(Clone, Copy, Debug, PartialEq, Eq, PartialOrd, Ord)]
struct HomeKey {
    ep: usize,
    frame: i64,
    subframe: u8,
    slot: u8,
}

/// The endpoint and slot of a line.
fn home_key(line: &UplinkLine) -> HomeKey
    ensures ep { result.ep ≡ line.now.ep }
    ensures frame { result.frame ≡ line.now.slot.frame }
    ensures subframe { result.subframe ≡ line.now.slot.subframe }
    ensures slot { result.slot ≡ line.now.slot.slot }
{
    HomeKey {
        ep: line.ep,
        frame: line.slot.frame,
        subframe: line.slot.subframe,
        slot: line.slot.slot,
    }
}

/// Whether a line is for the uplink.
fn is_uplink(p: &PlannedLine) -> bool
    ensures { result ≡ is_up_line p.now }
{
    match p.line.kind {
        PlanKind::Up => true,
        PlanKind::Down | PlanKind::Idle => false,
    }
}

/// What is kept of a line: a line of no PRBs names all of its carrier.
fn line_of(p: &PlannedLine) -> UplinkLine
    ensures { result ≡ line_of (line_allocation p.now) }
{
    let line = &p.line;
    let prbs = p.prbs();
    UplinkLine {
        ep: p.ep,
        slot: line.slot,
        first_prb: prbs.first,
        prbs: prbs.count,
        mask: line.mask,
        section: line.section,
        symbol: line.symbol,
        num_symbol: line.count,
    }
}

/// The uplink lines of a plan, in its order.
pub(crate) fn uplink_lines(
    alloc: Global,
    planned: &[PlannedLine],
) -> Result<Vec<UplinkLine>, NoMemory>
    ensures { IfOk result (λ v. v.items ≡ map line_of (uplink_allocations planned.now)) }
{
    let mut lines = Vec::new(alloc);
    for p in planned {
        if is_uplink(p) {
            lines.push(line_of(p))?;
        }
    }
    Ok(lines)
}

/// Sorts lines by endpoint and slot; those of one slot stay in their order.
pub(crate) fn sort_by_home(lines: &mut Vec<UplinkLine>) -> Result<(), NoMemory>
    ensures order { OnOk result (AreLinesInOrder lines.new.items) }
    ensures homes { (ep : ℕ) (slot : SpecSlot) → lines_at ep slot lines.new.items ≡ lines_at ep slot lines.old.items }
{
    lines.sort_by_key(home_key)?;
    Ok(())
}

/// Whether two lines are of one slot of an endpoint.
pub(crate) fn same_home(a: &UplinkLine, b: &UplinkLine) -> bool
    ensures { result ≡ same_home a.now b.now }
{
    a.ep == b.ep && same_slot(&a.slot, &b.slot)
}
