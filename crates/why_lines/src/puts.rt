// The lines that say why elements of a plan are silent.
ghost use Rattle.std.specs.Prelude.{◌≡◌, ◌-◌, ◌<◌, ◌^◌, length, OnOk, IfErr, IfSome};
ghost use Rattle.std.specs.List.{AllByRecursion};
ghost use Rattle.std.specs.Option.{option_to_list};
ghost use Rattle.air_source.specs.Causes.{HasAirCause};
ghost use Rattle.explain_model.specs.Silent.{is_dl};
ghost use Rattle.explain_heard.specs.Runs.{HasPut, StopsPutting};
ghost use Rattle.explain_heard.specs.Stops.{StopsInLine};
ghost use Rattle.why_lines.specs.Silent.{IsSilentLine, silent_items, silent_items_at, silent_items_if, silent_items_in, silent_items_of, silent_line_of, silent_related, silent_text};

use crate::items::{LineSymbol, SilentItem, silent_item};
use crate::masks::silent_mask;
use air_source::{AirFault, Side};
use explain_heard::{LineRuns, LineSink};
use explain_model::{CellRun, CommandRecord, SlotKey, SymbolKey};
use explain_records::{OrderedKept, OrderedRecords};
use fh_base::air;
use plan_model::PlannedLine;
use window_config::PlanKind;

/// A PRB of a symbol of a line, where elements of it are silent.
#[tactic(auto, using(crate::proofs::MaskLemmas::no_item, crate::proofs::MaskLemmas::one_item))]
fn silent_at(
    of: &LineSymbol,
    commanded: &[CommandRecord],
    cells: &[CellRun],
    prb: u16,
) -> Option<SilentItem>
    ensures items { option_to_list result ≡ silent_items_at commanded.now cells.now of.now prb }
    ensures prb { IfSome result (λ item. item.prb ≡ prb) }
{
    let mask = silent_mask(cells, of.planned.endpoint.id, of.planned.line.mask, prb);
    if mask == 0 {
        None
    } else {
        Some(silent_item(of, commanded, prb, mask))
    }
}

/// Puts a PRB of a symbol of a line, where elements of it are silent.
fn put_prb<W: LineSink>(
    of: &LineSymbol,
    commanded: &[CommandRecord],
    cells: &[CellRun],
    prb: u16,
    lines: &mut LineRuns<SilentItem>,
    out: &mut W,
) -> Result<(), AirFault>
    requires { prb < 2 ^ 16 - 1 }
    ensures ok { OnOk result (HasPut silent_related silent_line_of W.grew (silent_items_at commanded.now cells.now of.now prb) lines.old out.old lines.new out.new) }
    ensures stop { IfErr result (λ f. StopsPutting silent_related silent_line_of W.grew (W.stopped f) (silent_items_at commanded.now cells.now of.now prb) lines.old out.old out.new) }
    ensures same { W.same out.old out.new }
    ensures cause { HasAirCause (W.faults out.old) (W.faults out.new) result }
{
    match silent_at(of, commanded, cells, prb) {
        Some(item) => lines.put(item, out),
        None => Ok(()),
    }
}

/// Puts the PRBs of a symbol of a line.
fn put_symbol<W: LineSink>(
    of: &LineSymbol,
    commanded: &[CommandRecord],
    cells: &[CellRun],
    lines: &mut LineRuns<SilentItem>,
    out: &mut W,
) -> Result<(), AirFault>
    requires { IsSilentLine of.now.planned }
    ensures ok { OnOk result (HasPut silent_related silent_line_of W.grew (silent_items_in commanded.now cells.now of.now) lines.old out.old lines.new out.new) }
    ensures stop { IfErr result (λ f. StopsPutting silent_related silent_line_of W.grew (W.stopped f) (silent_items_in commanded.now cells.now of.now) lines.old out.old out.new) }
    ensures same { W.same out.old out.new }
    ensures cause { HasAirCause (W.faults out.old) (W.faults out.new) result }
{
    let prbs = of.planned.prbs();
    for prb in prbs.first..prbs.first + prbs.count {
        put_prb(of, commanded, cells, prb, lines, out)?;
    }
    Ok(())
}

/// Puts the symbols of a line of a plan with its number in the document.
#[tactic(auto, using(fh_base::proofs::Order::symbols_few))]
fn put_line<W: LineSink>(
    kept: &OrderedKept,
    cells: &OrderedRecords<CellRun>,
    p: &PlannedLine,
    number: u64,
    lines: &mut LineRuns<SilentItem>,
    out: &mut W,
) -> Result<(), AirFault>
    requires { IsSilentLine p.now }
    ensures ok { OnOk result (HasPut silent_related silent_line_of W.grew (silent_items_of kept.now cells.now number p.now) lines.old out.old lines.new out.new) }
    ensures stop { IfErr result (λ f. StopsPutting silent_related silent_line_of W.grew (W.stopped f) (silent_items_of kept.now cells.now number p.now) lines.old out.old out.new) }
    ensures same { W.same out.old out.new }
    ensures cause { HasAirCause (W.faults out.old) (W.faults out.new) result }
{
    let commanded = kept.commanded_in(SlotKey {
        ep: p.ep,
        slot: p.line.slot,
    });
    for symbol in p.line.symbol..p.line.symbol + p.line.count {
        let of = LineSymbol {
            planned: *p,
            number,
            symbol,
            at: air(&p.endpoint.numerology, p.line.slot, symbol),
        };
        let key = SymbolKey {
            side: Side::Ru,
            ep: p.ep,
            slot: p.line.slot,
            symbol,
        };
        put_symbol(&of, commanded, cells.of_symbol(key), lines, out)?;
    }
    Ok(())
}

/// Whether a line is for samples of the downlink.
fn is_down(kind: PlanKind) -> bool
    ensures { result ≡ is_dl kind }
{
    match kind {
        PlanKind::Down => true,
        PlanKind::Up | PlanKind::Idle => false,
    }
}

/// Puts a line of a plan, where it is of the downlink.
fn put_planned<W: LineSink>(
    kept: &OrderedKept,
    cells: &OrderedRecords<CellRun>,
    p: &PlannedLine,
    numbers: &[u64],
    lines: &mut LineRuns<SilentItem>,
    out: &mut W,
) -> Result<(), AirFault>
    requires line { IsSilentLine p.now }
    requires number { p.now.index < length numbers.now }
    ensures ok { OnOk result (HasPut silent_related silent_line_of W.grew (silent_items_if kept.now cells.now numbers.now p.now) lines.old out.old lines.new out.new) }
    ensures stop { IfErr result (λ f. StopsPutting silent_related silent_line_of W.grew (W.stopped f) (silent_items_if kept.now cells.now numbers.now p.now) lines.old out.old out.new) }
    ensures same { W.same out.old out.new }
    ensures cause { HasAirCause (W.faults out.old) (W.faults out.new) result }
{
    if is_down(p.line.kind) {
        put_line(kept, cells, p, numbers[p.index], lines, out)
    } else {
        Ok(())
    }
}

/// Puts the downlink lines of a plan.
fn put_lines<W: LineSink>(
    kept: &OrderedKept,
    cells: &OrderedRecords<CellRun>,
    planned: &[PlannedLine],
    numbers: &[u64],
    lines: &mut LineRuns<SilentItem>,
    out: &mut W,
) -> Result<(), AirFault>
    requires lines { AllByRecursion IsSilentLine planned.now }
    requires numbers { AllByRecursion (λ p. p.index < length numbers.now) planned.now }
    ensures ok { OnOk result (HasPut silent_related silent_line_of W.grew (silent_items kept.now cells.now numbers.now planned.now) lines.old out.old lines.new out.new) }
    ensures stop { IfErr result (λ f. StopsPutting silent_related silent_line_of W.grew (W.stopped f) (silent_items kept.now cells.now numbers.now planned.now) lines.old out.old out.new) }
    ensures same { W.same out.old out.new }
    ensures cause { HasAirCause (W.faults out.old) (W.faults out.new) result }
{
    for p in planned {
        put_planned(kept, cells, p, numbers, lines, out)?;
    }
    Ok(())
}

/// Tells why elements of a plan are silent: a line for each run of PRBs of a line of the plan and symbol with the same silent elements
/// and reason. `cells` are all runs of cells of the replay; `numbers` are those of the plan's lines in the document.
pub fn tell_silent<W: LineSink>(
    kept: &OrderedKept,
    cells: &OrderedRecords<CellRun>,
    planned: &[PlannedLine],
    numbers: &[u64],
    out: &mut W,
) -> Result<(), AirFault>
    requires lines { AllByRecursion IsSilentLine planned.now }
    requires numbers { AllByRecursion (λ p. p.index < length numbers.now) planned.now }
    ensures heard { OnOk result (W.grew out.old (silent_text kept.now cells.now numbers.now planned.now) out.new) }
    ensures stop { IfErr result (λ f. StopsInLine W.grew (W.stopped f) (silent_text kept.now cells.now numbers.now planned.now) out.old out.new) }
    ensures same { W.same out.old out.new }
    ensures cause { HasAirCause (W.faults out.old) (W.faults out.new) result }
{
    let mut lines = LineRuns::new();
    put_lines(kept, cells, planned, numbers, &mut lines, out)?;
    lines.finish(out)
}
