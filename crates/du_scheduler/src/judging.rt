// The tests of lines against the earlier ones, slot by slot.
ghost use Rattle.std.specs.Prelude.{◌≡◌, ◌≢◌, ◌<◌, ℕ, All, List, [], length, map, None, IfOk, true, false};
ghost use Rattle.std.specs.List.{AllByRecursion};
ghost use Rattle.fh_base.specs.declared.values.Slot.{Slot as SpecSlot};
ghost use Rattle.window_config.specs.Endpoints.{IsEndpoint};
ghost use Rattle.slot_rings.specs.Rings.{has_slot};
ghost use Rattle.plan_model.specs.Lines.{line_allocation};
ghost use Rattle.plan_model.specs.Validity.{why_claimed};
ghost use Rattle.plan_model.specs.declared.lines.PlannedLine.{PlannedLine as SpecLine};
ghost use Rattle.schedule_laws.specs.PlacedLines.{ArePlaced, IsPlaced};
ghost use Rattle.schedule_laws.specs.SlotTests.{Covers, entry_of, judged, least_along, lesser_refusal, numbered_lines, refused_along, why_of};
ghost use Rattle.schedule_laws.specs.SlotOrder.{ArePlannedInOrder, IsEndpointLine, IsFirstRun, IsSlotLine, ep_of};
ghost use Rattle.fh_base.specs.Members.{IsIn};

use crate::sorting::{lines_of, sort_by_slot};
use fh_base::NoMemory;
use plan_model::{PlanWhy, PlannedLine, line_allocation};
use slot_rings::SlotRing;
use std::alloc::Global;
use unit_model::{CommandVerdict, same_slot};
use window_config::EndpointConfig;

/// The reason that a verdict other than Accepted is.
fn why_of(verdict: CommandVerdict) -> PlanWhy
    ensures { result ≡ why_of verdict }
{
    match verdict {
        CommandVerdict::Full => PlanWhy::TooManySections,
        CommandVerdict::Range => PlanWhy::Range,
        CommandVerdict::Mismatch
        | CommandVerdict::Late
        | CommandVerdict::Early
        | CommandVerdict::Repeat
        | CommandVerdict::Overlap
        | CommandVerdict::Accepted => PlanWhy::Overlap,
    }
}

/// The first of a slot's lines that is refused, and why: its lines are in the order of the plan, `first` is one of them, and the
/// ring, of one place, has nothing of the slot yet.
fn judge_slot(
    ring: &mut SlotRing,
    first: &PlannedLine,
    lines: &[PlannedLine],
) -> Option<(usize, PlanWhy)>
    requires one { length ring.old.places ≡ 1 }
    requires free { has_slot ring.old first.now.line.slot ≡ false }
    requires slot { IsSlotLine ring.old.endpoint first.now.ep first.now.line.slot first.now }
    requires lines { AllByRecursion (IsSlotLine ring.old.endpoint first.now.ep first.now.line.slot) lines.now }
    ensures value { result ≡ judged lines.now }
    ensures endpoint { ring.new.endpoint ≡ ring.old.endpoint }
    ensures one { length ring.new.places ≡ 1 }
    ensures others { (other : SpecSlot) → other ≢ first.now.line.slot → has_slot ring.new other ≡ false }
{
    ring.open(first.line.slot);
    for line in lines {
        let named = line_allocation(line);
        match ring.judge(&named) {
            CommandVerdict::Accepted => ring.claim(&named),
            refused => return Some((line.index, why_of(refused))),
        }
    }
    None
}

/// How many lines from the first on are of its slot.
fn slot_len(lines: &[PlannedLine]) -> usize
    requires { 0 < length lines.now }
    ensures { IsFirstRun lines.now result }
{
    for k in 1..lines.len() {
        if !same_slot(&lines[k].line.slot, &lines[0].line.slot) {
            return k;
        }
    }
    lines.len()
}

/// The refusal of the lower line.
fn lesser(a: Option<(usize, PlanWhy)>, b: Option<(usize, PlanWhy)>) -> Option<(usize, PlanWhy)>
    ensures { result ≡ lesser_refusal a b }
{
    match (a, b) {
        (None, b) => b,
        (Some(p), None) => Some(p),
        (Some(p), Some(q)) => { if q.0 < p.0 { Some(q) } else { Some(p) } }
    }
}

/// The least of what the slots of an endpoint's lines refuse, each by itself: the lines are in the order of slots, and the ring has
/// one place and nothing yet.
fn judge_slots(ring: &mut SlotRing, lines: &[PlannedLine]) -> Option<(usize, PlanWhy)>
    requires one { length ring.old.places ≡ 1 }
    requires free { (slot : SpecSlot) → has_slot ring.old slot ≡ false }
    requires lines { AllByRecursion (IsEndpointLine ring.old.endpoint (ep_of lines.now)) lines.now }
    requires order { ArePlannedInOrder lines.now }
    ensures { result ≡ least_along lines.now None lines.now }
{
    let mut least = None;
    let mut rest = lines;
    while !rest.is_empty() {
        let (slot, others) = rest.split_at(slot_len(rest));
        least = lesser(least, judge_slot(ring, &rest[0], slot));
        rest = others;
    }
    least
}

/// The least of what the slots of an endpoint's lines refuse, which are in the order of slots.
fn judge_own(alloc: Global, own: &[PlannedLine]) -> Result<Option<(usize, PlanWhy)>, NoMemory>
    requires endpoint { (p : SpecLine) → IsIn p own.now → IsEndpoint p.endpoint }
    requires lines { (p : SpecLine) → IsIn p own.now → AllByRecursion (IsEndpointLine p.endpoint (ep_of own.now)) own.now }
    requires order { ArePlannedInOrder own.now }
    ensures { IfOk result (λ least. least ≡ least_along own.now None own.now) }
{
    if own.is_empty() {
        return Ok(None);
    }
    let mut ring = SlotRing::make(alloc, own[0].endpoint, 1)?;
    Ok(judge_slots(&mut ring, own))
}

/// The least of a refusal and of what the slots of one endpoint refuse.
fn judge_endpoint(
    alloc: Global,
    ep: usize,
    lines: &[PlannedLine],
    least: Option<(usize, PlanWhy)>,
) -> Result<Option<(usize, PlanWhy)>, NoMemory>
    requires lines { ArePlaced lines.now }
    ensures { IfOk result (λ new. Covers lines.now ep least new) }
{
    let mut own = lines_of(alloc, lines, ep)?;
    sort_by_slot(&mut own)?;
    let first = judge_own(alloc, &own)?;
    Ok(lesser(least, first))
}

/// The first line that is refused by the lines before it, and why, where none is refused by itself.
pub(crate) fn judge_lines(
    alloc: Global,
    endpoints: &[EndpointConfig],
    lines: &[PlannedLine],
) -> Result<Option<(usize, PlanWhy)>, NoMemory>
    requires endpoints { All IsEndpoint endpoints.now }
    requires lines { AllByRecursion (IsPlaced endpoints.now) lines.now }
    requires numbers { map entry_of lines.now ≡ numbered_lines 0 (map line_allocation lines.now) }
    ensures { IfOk result (λ first. first ≡ refused_along why_claimed [] 0 (map line_allocation lines.now)) }
{
    let mut least = None;
    for ep in 0..endpoints.len() {
        least = judge_endpoint(alloc, ep, lines, least)?;
    }
    Ok(least)
}
