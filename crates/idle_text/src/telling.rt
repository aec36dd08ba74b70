// The lines of an endpoint, told to a sink.
ghost use Rattle.std.specs.Prelude.{◌≡◌, ℕ, ◌+◌, ◌*◌, ◌<◌, ◌≤◌, ◌++◌, ◌||◌, false, if◌then◌else◌, [], ◌∷◌, List, length, get_or, OnOk, OnErr};
ghost use Rattle.std.specs.List.{flat_map, list_any};
ghost use Rattle.fh_base.specs.Causes.{HasSinkCause};
ghost use Rattle.fh_base.specs.Told.{WritesFront};
ghost use Rattle.fh_base.specs.Numbering.{symbols_of};
ghost use Rattle.fh_base.specs.Owed.{Carried};
ghost use Rattle.air_source.specs.declared.events.AirCell.{AirCell};
ghost use Rattle.fh_base.specs.Lists.{each};
ghost use Rattle.idle_spans.specs.Tables.{endpoints_of, symbols_in};
ghost use Rattle.idle_text.specs.Lines.{idle_line, plan_line_text, span_line_text};
ghost use Rattle.idle_text.specs.Free.{has_slot, slot_at};
ghost use Rattle.idle_text.specs.Listed.{listed_runs};
ghost use Rattle.idle_text.specs.Tables.{IsTableOf, StandsAt};
ghost use Rattle.idle_text.specs.Text.{flagged_slot, flagged_text, lines_text, spans_text};

use crate::flags::set_slots;
use crate::lines::{idle_line, put_plan_line, put_span_line};
use crate::numbers::number_of;
use fh_base::{Line, OwedBytes, Sink, SinkFault, shape};
use idle_spans::{Span, Spans};
use window_config::{EndpointConfig, PlanLine};

/// Tells the line of a span.
fn tell_span<K: Sink>(
    id: u16,
    span: &Span,
    owed: &mut OwedBytes,
    out: &mut K,
) -> Result<(), SinkFault>
    ensures carried { OnOk result (Carried (K.written out.old) owed.old (span_line_text id span.now) (K.written out.new) owed.new) }
    ensures front { OnErr result (WritesFront (K.written out.old) (K.written out.new) (owed.old ++ span_line_text id span.now)) }
    ensures cause { HasSinkCause (K.faults out.old) (K.faults out.new) (K.refusals out.old) (K.refusals out.new) result }
{
    let mut line = Line::new();
    put_span_line(&mut line, id, span);
    owed.tell(line.as_slice(), out)
}

/// Tells a plan line.
fn tell_plan_line<K: Sink>(l: &PlanLine, owed: &mut OwedBytes, out: &mut K) -> Result<(), SinkFault>
    ensures carried { OnOk result (Carried (K.written out.old) owed.old (plan_line_text l.now) (K.written out.new) owed.new) }
    ensures front { OnErr result (WritesFront (K.written out.old) (K.written out.new) (owed.old ++ plan_line_text l.now)) }
    ensures cause { HasSinkCause (K.faults out.old) (K.faults out.new) (K.refusals out.old) (K.refusals out.new) result }
{
    let mut line = Line::new();
    put_plan_line(&mut line, l);
    owed.tell(line.as_slice(), out)
}

/// Tells the lines of an endpoint's listed spans, and sets the flags of the slots that lie in one of them.
pub(crate) fn tell_spans<K: Sink>(
    spans: &Spans,
    ep: usize,
    e: &EndpointConfig,
    min: u32,
    flags: &mut [bool],
    owed: &mut OwedBytes,
    out: &mut K,
) -> Result<(), SinkFault>
    requires ep { ep < length (endpoints_of spans.now) }
    requires min { 1 ≤ min }
    requires stands { StandsAt spans.now ep e.now }
    requires size { length flags.old * symbols_of e.now.numerology ≡ symbols_in spans.now ep }
    requires small { symbols_in spans.now ep ≤ 22400 }
    ensures carried { (first last : ℕ) (cells : List AirCell) → IsTableOf spans.now ep e.now first last cells
        → OnOk result (Carried (K.written out.old) owed.old (spans_text first last cells min e.now) (K.written out.new) owed.new) }
    ensures flags { (first last : ℕ) (cells : List AirCell) → IsTableOf spans.now ep e.now first last cells
        → OnOk result ((k : ℕ) → k < length flags.old → get_or flags.new k false ≡ (get_or flags.old k false || list_any (has_slot (symbols_of e.now.numerology) k) (listed_runs e.now first last cells min))) }
    ensures front { (first last : ℕ) (cells : List AirCell) → IsTableOf spans.now ep e.now first last cells
        → OnErr result (WritesFront (K.written out.old) (K.written out.new) (owed.old ++ spans_text first last cells min e.now)) }
    ensures cause { HasSinkCause (K.faults out.old) (K.faults out.new) (K.refusals out.old) (K.refusals out.new) result }
{
    let symbols = shape(&e.numerology).symbols as usize;
    let mut after = None;
    let mut from = 0;
    while let Some(span) = spans.next(ep, after, min) {
        let first = number_of(spans, ep, e, span.first);
        set_slots(flags, symbols, first, span.symbols as usize);
        tell_span(e.id, &span, owed, out)?;
        after = Some(span.first);
        from = first + 1;
    }
    Ok(())
}

/// Tells the line that is proposed for a slot, where its flag is set.
fn tell_slot<K: Sink>(
    spans: &Spans,
    ep: usize,
    e: &EndpointConfig,
    k: usize,
    flag: bool,
    owed: &mut OwedBytes,
    out: &mut K,
) -> Result<(), SinkFault>
    requires ep { ep < length (endpoints_of spans.now) }
    requires stands { StandsAt spans.now ep e.now }
    requires slot { k * symbols_of e.now.numerology < symbols_in spans.now ep }
    requires small { symbols_in spans.now ep ≤ 22400 }
    ensures carried { (first last : ℕ) (cells : List AirCell) → IsTableOf spans.now ep e.now first last cells
        → OnOk result (Carried (K.written out.old) owed.old (lines_text e.now (flagged_slot first e.now flag k)) (K.written out.new) owed.new) }
    ensures front { (first last : ℕ) (cells : List AirCell) → IsTableOf spans.now ep e.now first last cells
        → OnErr result (WritesFront (K.written out.old) (K.written out.new) (owed.old ++ lines_text e.now (flagged_slot first e.now flag k))) }
    ensures cause { HasSinkCause (K.faults out.old) (K.faults out.new) (K.refusals out.old) (K.refusals out.new) result }
{
    if !flag {
        return Ok(());
    }
    let symbols = shape(&e.numerology).symbols as usize;
    let slot = spans.symbol(ep, k * symbols).slot;
    tell_plan_line(&idle_line(e, slot), owed, out)
}

/// Tells the lines that are proposed for the slots whose flags are set.
pub(crate) fn tell_free<K: Sink>(
    spans: &Spans,
    ep: usize,
    e: &EndpointConfig,
    flags: &[bool],
    owed: &mut OwedBytes,
    out: &mut K,
) -> Result<(), SinkFault>
    requires ep { ep < length (endpoints_of spans.now) }
    requires stands { StandsAt spans.now ep e.now }
    requires size { length flags.now * symbols_of e.now.numerology ≡ symbols_in spans.now ep }
    requires small { symbols_in spans.now ep ≤ 22400 }
    ensures carried { (first last : ℕ) (cells : List AirCell) → IsTableOf spans.now ep e.now first last cells
        → OnOk result (Carried (K.written out.old) owed.old (flagged_text first e.now flags.now (length flags.now)) (K.written out.new) owed.new) }
    ensures front { (first last : ℕ) (cells : List AirCell) → IsTableOf spans.now ep e.now first last cells
        → OnErr result (WritesFront (K.written out.old) (K.written out.new) (owed.old ++ flagged_text first e.now flags.now (length flags.now))) }
    ensures cause { HasSinkCause (K.faults out.old) (K.faults out.new) (K.refusals out.old) (K.refusals out.new) result }
{
    for k in 0..flags.len() {
        tell_slot(spans, ep, e, k, flags[k], owed, out)?;
    }
    Ok(())
}
