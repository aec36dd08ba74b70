// What is told after the last event.
ghost use Rattle.std.specs.Prelude.{◌≡◌, ◌++◌, List, IfErr, OnOk};
ghost use Rattle.air_source.specs.Causes.{HasAirCause};
ghost use Rattle.air_source.specs.declared.events.Event.{Event};
ghost use Rattle.air_source.specs.declared.events.Side.TheVariants.{Ru, Du};
ghost use Rattle.explain_air.specs.Closing.{AreOf, IsEnding, IsLast, rest_of};
ghost use Rattle.explain_air.specs.Notes.{HasNoted};
ghost use Rattle.explain_model.specs.Subjects.{Subject, reason_lines, reasons_of};
ghost use Rattle.explain_model.specs.declared.values.ExplainLine.{ExplainLine as SpecLine};
ghost use Rattle.explain_model.specs.Margins.{margin_lines};
ghost use Rattle.explain_heard.specs.Stops.{StopsSome};
ghost use Rattle.explain_units.specs.Units.{IsUnitAfter};
ghost use Rattle.explain_records.specs.Missing.{missing_text};
ghost use Rattle.why_lines.specs.Sums.{AreSums, sum_text};
ghost use Rattle.why_lines.specs.Silent.{silent_text};
ghost use Rattle.why_lines.specs.Unused.{unused_text};
ghost use Rattle.window_config.specs.declared.config.Config.{Config as SpecConfig};
ghost use Rattle.window_config.specs.declared.endpoints.EndpointConfig.{EndpointConfig as SpecEndpoint};

use crate::cells::CellRuns;
use crate::notes::{Notes, Noting};
use crate::plan::PlanLines;
use air_source::{AirFault, Side};
use explain_heard::LineSink;
use explain_model::CellRun;
use explain_records::{HeardRecords, OrderedKept, OrderedRecords, tell_missing};
use explain_units::UnitLines;
use std::alloc::Global;
use std::mem::replace;
use why_lines::{ReasonSums, tell_silent, tell_unused};
use window_config::EndpointConfig;

/// Tells why cells are missing, and notes it.
fn note_missing<W: LineSink>(
    ordered: &OrderedKept,
    cells: &CellRuns,
    notes: &mut Notes,
    out: &mut W,
) -> Result<(), AirFault>
    ensures noted { OnOk result (HasNoted notes.old (missing_text ordered.now cells.now) notes.new) }
    ensures heard { OnOk result (W.grew out.old (missing_text ordered.now cells.now) out.new) }
    ensures stop { IfErr result (λ f. StopsSome W.grew (W.stopped f) (missing_text ordered.now cells.now) out.old out.new) }
    ensures same { W.same out.old out.new }
    ensures cause { HasAirCause (W.faults out.old) (W.faults out.new) result }
{
    let mut noting = Noting {
        out: &mut *out,
        notes: &mut *notes,
    };
    tell_missing(ordered, cells.as_slice(), &mut noting)
}

/// Tells why elements of the plan are silent, and notes it.
fn note_silent<W: LineSink>(
    ordered: &OrderedKept,
    sorted: &OrderedRecords<CellRun>,
    plan: &PlanLines,
    notes: &mut Notes,
    out: &mut W,
) -> Result<(), AirFault>
    ensures noted { OnOk result (HasNoted notes.old (silent_text ordered.now sorted.now plan.now.numbers plan.now.planned) notes.new) }
    ensures heard { OnOk result (W.grew out.old (silent_text ordered.now sorted.now plan.now.numbers plan.now.planned) out.new) }
    ensures stop { IfErr result (λ f. StopsSome W.grew (W.stopped f) (silent_text ordered.now sorted.now plan.now.numbers plan.now.planned) out.old out.new) }
    ensures same { W.same out.old out.new }
    ensures cause { HasAirCause (W.faults out.old) (W.faults out.new) result }
{
    let mut noting = Noting {
        out: &mut *out,
        notes: &mut *notes,
    };
    tell_silent(ordered, sorted, plan.planned(), plan.numbers(), &mut noting)
}

/// Tells which blocks no cell shows, and notes it.
fn note_unused<W: LineSink>(
    alloc: Global,
    endpoints: &[EndpointConfig],
    ordered: &OrderedKept,
    sorted: &OrderedRecords<CellRun>,
    notes: &mut Notes,
    out: &mut W,
) -> Result<(), AirFault>
    ensures noted { OnOk result (HasNoted notes.old (unused_text endpoints.now ordered.now sorted.now) notes.new) }
    ensures heard { OnOk result (W.grew out.old (unused_text endpoints.now ordered.now sorted.now) out.new) }
    ensures stop { IfErr result (λ f. StopsSome W.grew (W.stopped f) (unused_text endpoints.now ordered.now sorted.now) out.old out.new) }
    ensures same { W.same out.old out.new }
    ensures cause { HasAirCause (W.faults out.old) (W.faults out.new) result }
{
    let mut noting = Noting {
        out: &mut *out,
        notes: &mut *notes,
    };
    tell_unused(alloc, ordered, sorted, endpoints, &mut noting)
}

/// What reasons are found in beside the runs of cells.
#[derive(Drop)]
struct Grounds<'a> {
    endpoints: &'a [EndpointConfig],
    ordered: &'a OrderedKept,
    plan: &'a PlanLines,
}

/// Tells why elements of the plan are silent, and which blocks no cell shows.
fn tell_rest<W: LineSink>(
    alloc: Global,
    grounds: &Grounds<'_>,
    cells: CellRuns,
    notes: &mut Notes,
    out: &mut W,
) -> Result<(), AirFault>
    ensures noted { OnOk result ((s : Subject) (events : List Event) → AreOf s events grounds.now.endpoints.now grounds.now.ordered.now cells grounds.now.plan.now → HasNoted notes.old (rest_of s events) notes.new) }
    ensures heard { OnOk result ((s : Subject) (events : List Event) → AreOf s events grounds.now.endpoints.now grounds.now.ordered.now cells grounds.now.plan.now → W.grew out.old (rest_of s events) out.new) }
    ensures stop { IfErr result (λ f. (s : Subject) (events : List Event) → AreOf s events grounds.now.endpoints.now grounds.now.ordered.now cells grounds.now.plan.now → StopsSome W.grew (W.stopped f) (rest_of s events) out.old out.new) }
    ensures same { W.same out.old out.new }
    ensures cause { HasAirCause (W.faults out.old) (W.faults out.new) result }
{
    let sorted = cells.order()?;
    note_silent(grounds.ordered, &sorted, grounds.plan, notes, out)?;
    note_unused(
        alloc,
        grounds.endpoints,
        grounds.ordered,
        &sorted,
        notes,
        out,
    )
}

/// Tells why cells are missing and elements of the plan are silent, and which blocks no cell shows.
fn tell_reasons<W: LineSink>(
    alloc: Global,
    grounds: &Grounds<'_>,
    cells: CellRuns,
    notes: &mut Notes,
    out: &mut W,
) -> Result<(), AirFault>
    ensures noted { OnOk result ((s : Subject) (events : List Event) → AreOf s events grounds.now.endpoints.now grounds.now.ordered.now cells grounds.now.plan.now → HasNoted notes.old ((reasons_of s events).whys) notes.new) }
    ensures heard { OnOk result ((s : Subject) (events : List Event) → AreOf s events grounds.now.endpoints.now grounds.now.ordered.now cells grounds.now.plan.now → W.grew out.old ((reasons_of s events).whys) out.new) }
    ensures stop { IfErr result (λ f. (s : Subject) (events : List Event) → AreOf s events grounds.now.endpoints.now grounds.now.ordered.now cells grounds.now.plan.now → StopsSome W.grew (W.stopped f) ((reasons_of s events).whys) out.old out.new) }
    ensures same { W.same out.old out.new }
    ensures cause { HasAirCause (W.faults out.old) (W.faults out.new) result }
{
    note_missing(grounds.ordered, &cells, notes, out)?;
    tell_rest(alloc, grounds, cells, notes, out)
}

/// Tells the margins of both units.
fn tell_margins<W: LineSink>(ru: &UnitLines, du: &UnitLines, out: &mut W) -> Result<(), AirFault>
    ensures heard { OnOk result ((c : SpecConfig) (events : List Event) → IsUnitAfter Ru c events ru.now → IsUnitAfter Du c events du.now → W.grew out.old (margin_lines c events) out.new) }
    ensures stop { IfErr result (λ f. (c : SpecConfig) (events : List Event) → IsUnitAfter Ru c events ru.now → IsUnitAfter Du c events du.now → StopsSome W.grew (W.stopped f) (margin_lines c events) out.old out.new) }
    ensures same { W.same out.old out.new }
    ensures cause { HasAirCause (W.faults out.old) (W.faults out.new) result }
{
    ru.tell_margins(out)?;
    du.tell_margins(out)
}

/// Tells how many cells are shown, and how many missing or silent for which reason.
fn tell_sums<W: LineSink>(sums: &ReasonSums, out: &mut W) -> Result<(), AirFault>
    ensures heard { OnOk result ((es : List SpecEndpoint) (ls : List SpecLine) → AreSums es ls sums.now → W.grew out.old (sum_text es Ru ls ++ sum_text es Du ls) out.new) }
    ensures stop { IfErr result (λ f. (es : List SpecEndpoint) (ls : List SpecLine) → AreSums es ls sums.now → StopsSome W.grew (W.stopped f) (sum_text es Ru ls ++ sum_text es Du ls) out.old out.new) }
    ensures same { W.same out.old out.new }
    ensures cause { HasAirCause (W.faults out.old) (W.faults out.new) result }
{
    sums.tell(Side::Ru, out)?;
    sums.tell(Side::Du, out)
}

/// Tells the reasons, the margins of both units, and how many cells are shown, missing or silent.
fn tell_ending<W: LineSink>(
    alloc: Global,
    grounds: &Grounds<'_>,
    cells: CellRuns,
    ru: &UnitLines,
    du: &UnitLines,
    notes: &mut Notes,
    out: &mut W,
) -> Result<(), AirFault>
    ensures heard { OnOk result ((s : Subject) (events : List Event) → IsEnding s events grounds.now.endpoints.now grounds.now.ordered.now cells grounds.now.plan.now ru.now du.now notes.old → W.grew out.old (reason_lines s events) out.new) }
    ensures stop { IfErr result (λ f. (s : Subject) (events : List Event) → IsEnding s events grounds.now.endpoints.now grounds.now.ordered.now cells grounds.now.plan.now ru.now du.now notes.old → StopsSome W.grew (W.stopped f) (reason_lines s events) out.old out.new) }
    ensures same { W.same out.old out.new }
    ensures cause { HasAirCause (W.faults out.old) (W.faults out.new) result }
{
    tell_reasons(alloc, grounds, cells, notes, out)?;
    tell_margins(ru, du, out)?;
    tell_sums(&notes.sums, out)
}

/// Sorts the records, and tells what is between the lines of the events and the counters.
pub(crate) fn tell_last<W: LineSink>(
    alloc: Global,
    ru: &UnitLines,
    du: &UnitLines,
    notes: Notes,
    records: HeardRecords,
    plan: &PlanLines,
    out: &mut W,
) -> Result<(), AirFault>
    ensures heard { OnOk result ((s : Subject) (events : List Event) → IsLast s events ru.now du.now notes records plan.now → W.grew out.old (reason_lines s events) out.new) }
    ensures stop { IfErr result (λ f. (s : Subject) (events : List Event) → IsLast s events ru.now du.now notes records plan.now → StopsSome W.grew (W.stopped f) (reason_lines s events) out.old out.new) }
    ensures same { W.same out.old out.new }
    ensures cause { HasAirCause (W.faults out.old) (W.faults out.new) result }
{
    let mut notes = notes;
    let endpoints = notes.copy_endpoints(alloc)?;
    let cells = replace(&mut notes.cells, CellRuns::new(alloc));
    let ordered = records.order(alloc)?;
    let grounds = Grounds {
        endpoints: endpoints.as_slice(),
        ordered: &ordered,
        plan,
    };
    tell_ending(alloc, &grounds, cells, ru, du, &mut notes, out)
}
