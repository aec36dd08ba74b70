// Flags of an endpoint's slots, in order.
ghost use Rattle.std.specs.Prelude.{◌≡◌, ℕ, ◌+◌, ◌*◌, ◌<◌, ◌≤◌, ◌&&◌, ◌||◌, Bool, false, not, Some, List as SpecList, length, get_or, slice_get, IfOk};
ghost use Rattle.fh_base.specs.Numbering.{symbols_of};
ghost use Rattle.air_source.specs.declared.events.AirCell.{AirCell};
ghost use Rattle.plan_model.specs.Lines.{is_down_kind};
ghost use Rattle.idle_spans.specs.Places.{is_index};
ghost use Rattle.idle_spans.specs.Tables.{endpoints_of, symbols_in};
ghost use Rattle.idle_text.specs.Free.{has_slot, is_of_slot, is_touched, slot_at};
ghost use Rattle.idle_text.specs.Tables.{IsTableOf};

use fh_base::{List, NoMemory, shape};
use idle_spans::{Place, Spans};
use std::alloc::Global;
use window_config::{EndpointConfig, PlanKind, PlanLine};

/// So many flags, none of them set.
pub fn no_flags(alloc: Global, count: usize) -> Result<Vec<bool>, NoMemory>
    ensures size { IfOk result (λ v. length v.items ≡ count) }
    ensures blank { IfOk result (λ v. (k : ℕ) → get_or v.items k false ≡ false) }
{
    Ok(vec![in alloc; false; count]?)
}

/// Sets the flags of the slots that lie in some symbols, where a slot has so many.
pub fn set_slots(flags: &mut [bool], symbols: usize, first: usize, len: usize)
    requires some { 1 ≤ symbols }
    requires few { symbols ≤ 14 }
    requires within { first + len ≤ length flags.old * symbols }
    requires small { first + len ≤ 22400 }
    ensures { (k : ℕ) → k < length flags.old → get_or flags.new k false ≡ (get_or flags.old k false || has_slot symbols k (record { first = first; len = len })) }
{
    for k in (first + symbols - 1) / symbols..(first + len) / symbols {
        flags[k] = true;
    }
}

/// Whether a line is for the downlink.
fn is_down(kind: PlanKind) -> bool
    ensures { result ≡ is_down_kind kind }
{
    match kind {
        PlanKind::Down | PlanKind::Idle => true,
        PlanKind::Up => false,
    }
}

/// The number of the slot of a downlink line of the endpoint. None where the line is another, or its slot is not there.
fn touched_slot(spans: &Spans, ep: usize, e: &EndpointConfig, line: &PlanLine) -> Option<usize>
    requires { ep < length (endpoints_of spans.now) }
    ensures { (first last : ℕ) (cells : SpecList AirCell) → IsTableOf spans.now ep e.now first last cells → (k : ℕ) → k * symbols_of e.now.numerology < symbols_in spans.now ep
        → is_of_slot e.now (slot_at e.now.numerology first k) line.now ≡ is_index result k }
{
    if line.id != e.id || !is_down(line.kind) {
        return None;
    }
    let place = Place {
        slot: line.slot,
        symbol: 0,
    };
    match spans.number(ep, place) {
        Some(number) => Some(number / shape(&e.numerology).symbols as usize),
        None => None,
    }
}

/// Clears the flag of a number, where there is one.
fn clear(flags: &mut [bool], slot: Option<usize>)
    ensures { (k : ℕ) → k < length flags.old → get_or flags.new k false ≡ (get_or flags.old k false && not (is_index slot k)) }
{
    if let Some(k) = slot {
        if k < flags.len() {
            flags[k] = false;
        }
    }
}

/// One of a list's lines.
fn line_at(lines: &List<PlanLine>, k: usize) -> PlanLine
    requires { k < length lines.now }
    ensures { slice_get lines.now k ≡ Some result }
{
    match lines.get(k) {
        Some(line) => *line,
        None => unreachable!(),
    }
}

/// Clears the flags of the slots that a plan's downlink lines touch.
pub fn clear_touched(
    flags: &mut [bool],
    spans: &Spans,
    ep: usize,
    e: &EndpointConfig,
    lines: &List<PlanLine>,
)
    requires ep { ep < length (endpoints_of spans.now) }
    requires size { length flags.old * symbols_of e.now.numerology ≤ symbols_in spans.now ep }
    ensures { (first last : ℕ) (cells : SpecList AirCell) → IsTableOf spans.now ep e.now first last cells → (k : ℕ) → k < length flags.old
        → get_or flags.new k false ≡ (get_or flags.old k false && not (is_touched e.now lines.now (slot_at e.now.numerology first k))) }
{
    for index in 0..lines.len() {
        let line = line_at(lines, index);
        clear(flags, touched_slot(spans, ep, e, &line));
    }
}
