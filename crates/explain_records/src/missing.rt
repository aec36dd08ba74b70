// The lines that say why cells are missing.
ghost use Rattle.std.specs.Prelude.{◌≡◌, ◌+◌, ◌==◌, OnOk, IfErr};
ghost use Rattle.std.specs.List.{AllByRecursion};
ghost use Rattle.air_source.specs.Causes.{HasAirCause};
ghost use Rattle.explain_model.specs.Missing.{alike, seen_run};
ghost use Rattle.explain_model.specs.Seen.{seen_at};
ghost use Rattle.explain_records.specs.Elements.{at_symbol};
ghost use Rattle.explain_heard.specs.Runs.{HasPut, StopsPutting};
ghost use Rattle.explain_heard.specs.Stops.{StopsInLine};
ghost use Rattle.explain_records.specs.Missing.{IsCellRun, missing_line_of, missing_prbs, missing_prbs_by, missing_prbs_of, missing_related, missing_text};

use crate::same::same_reason;
use crate::{AtSymbol, OrderedKept, missing_reason};
use air_source::AirFault;
use explain_heard::{LineRuns, LineSink, RunItem};
use explain_model::{CellRun, ExplainLine, PrbRun, Reason, SymbolPlace};
use unit_model::same_slot;

/// A cell without samples: the run that it is of, its PRB, and why it has none.
#[derive(Clone, Copy)]
pub(crate) struct MissingPrb {
    pub(crate) run: CellRun,
    pub(crate) prb: u16,
    pub(crate) reason: Reason,
}

/// Whether the cells of two runs are alike in all but their PRBs and samples.
fn alike(a: &CellRun, b: &CellRun) -> bool
    ensures { result ≡ alike (seen_at a.now a.now.prb) (seen_at b.now b.now.prb) }
{
    a.side == b.side
        && a.at == b.at
        && a.id == b.id
        && same_slot(&a.slot, &b.slot)
        && a.symbol == b.symbol
        && a.section == b.section
        && a.mask == b.mask
}

/// Whether a PRB is the next one.
pub fn is_next(prb: u16, next: u16) -> bool
    ensures { result ≡ (prb + 1 == next) }
{
    u32::from(prb) + 1 == u32::from(next)
}

/// PRBs of a run of cells.
fn prbs_of(run: &CellRun, prb: u16, num: u16) -> PrbRun
    ensures { result ≡ seen_run (seen_at run.now prb) num }
{
    PrbRun {
        side: run.side,
        at: run.at,
        place: SymbolPlace {
            id: run.id,
            slot: run.slot,
            symbol: run.symbol,
        },
        prb,
        num: u32::from(num),
        section: run.section,
    }
}

impl RunItem for MissingPrb {
    ghost use Rattle.explain_records.specs.MissingSteps.{next_missing};

    ghost related = { missing_related };

    ghost place = { λ a. a.prb };

    ghost run_line = { missing_line_of };

    ghost steps = { next_missing };

    fn leads_to(&self, next: &Self) -> bool {
        alike(&self.run, &next.run)
            && same_reason(&self.reason, &next.reason)
            && is_next(self.prb, next.prb)
    }

    fn line(&self, num: u16) -> ExplainLine {
        ExplainLine::WhyMissing {
            run: prbs_of(&self.run, self.prb, num),
            mask: self.run.mask,
            reason: self.reason,
        }
    }
}

/// Puts the cells of a run without samples, by the records of its symbol.
fn put_cells<W: LineSink>(
    at: &AtSymbol<'_>,
    run: &CellRun,
    lines: &mut LineRuns<MissingPrb>,
    out: &mut W,
) -> Result<(), AirFault>
    requires { IsCellRun run.now }
    ensures ok { OnOk result (HasPut missing_related missing_line_of W.grew (missing_prbs_by (at_symbol at.now) run.now) lines.old out.old lines.new out.new) }
    ensures stop { IfErr result (λ f. StopsPutting missing_related missing_line_of W.grew (W.stopped f) (missing_prbs_by (at_symbol at.now) run.now) lines.old out.old out.new) }
    ensures same { W.same out.old out.new }
    ensures cause { HasAirCause (W.faults out.old) (W.faults out.new) result }
{
    let key = run.key();
    for prb in run.prb..run.prb + run.count {
        let item = MissingPrb {
            run: *run,
            prb,
            reason: missing_reason(at, key, prb),
        };
        lines.put(item, out)?;
    }
    Ok(())
}

/// Puts a run of cells, where it has no samples.
fn put_run<W: LineSink>(
    kept: &OrderedKept,
    run: &CellRun,
    lines: &mut LineRuns<MissingPrb>,
    out: &mut W,
) -> Result<(), AirFault>
    requires { IsCellRun run.now }
    ensures ok { OnOk result (HasPut missing_related missing_line_of W.grew (missing_prbs_of kept.now run.now) lines.old out.old lines.new out.new) }
    ensures stop { IfErr result (λ f. StopsPutting missing_related missing_line_of W.grew (W.stopped f) (missing_prbs_of kept.now run.now) lines.old out.old out.new) }
    ensures same { W.same out.old out.new }
    ensures cause { HasAirCause (W.faults out.old) (W.faults out.new) result }
{
    if run.shown {
        Ok(())
    } else {
        let at = kept.at_symbol(run.key());
        put_cells(&at, run, lines, out)
    }
}

/// Puts the cells of some runs that have no samples.
fn put_runs<W: LineSink>(
    kept: &OrderedKept,
    runs: &[CellRun],
    lines: &mut LineRuns<MissingPrb>,
    out: &mut W,
) -> Result<(), AirFault>
    requires { AllByRecursion IsCellRun runs.now }
    ensures ok { OnOk result (HasPut missing_related missing_line_of W.grew (missing_prbs kept.now runs.now) lines.old out.old lines.new out.new) }
    ensures stop { IfErr result (λ f. StopsPutting missing_related missing_line_of W.grew (W.stopped f) (missing_prbs kept.now runs.now) lines.old out.old out.new) }
    ensures same { W.same out.old out.new }
    ensures cause { HasAirCause (W.faults out.old) (W.faults out.new) result }
{
    for run in runs {
        put_run(kept, run, lines, out)?;
    }
    Ok(())
}

/// Tells why cells are missing: a line for each run of cells without samples that have one reason. The runs of cells are those of the
/// replay, in its order.
pub fn tell_missing<W: LineSink>(
    kept: &OrderedKept,
    runs: &[CellRun],
    out: &mut W,
) -> Result<(), AirFault>
    requires { AllByRecursion IsCellRun runs.now }
    ensures heard { OnOk result (W.grew out.old (missing_text kept.now runs.now) out.new) }
    ensures stop { IfErr result (λ f. StopsInLine W.grew (W.stopped f) (missing_text kept.now runs.now) out.old out.new) }
    ensures same { W.same out.old out.new }
    ensures cause { HasAirCause (W.faults out.old) (W.faults out.new) result }
{
    let mut lines = LineRuns::new();
    put_runs(kept, runs, &mut lines, out)?;
    lines.finish(out)
}
