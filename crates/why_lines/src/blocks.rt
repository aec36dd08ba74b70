// The blocks of a symbol that no cell shows.
ghost use Rattle.std.specs.Prelude.{◌≡◌, ◌-◌, ◌<◌, ◌^◌, ◌+◌, ◌==◌, OnOk, IfErr};
ghost use Rattle.air_source.specs.Causes.{HasAirCause};
ghost use Rattle.explain_model.specs.Unused.{key_at};
ghost use Rattle.explain_heard.specs.Runs.{HasPut, StopsPutting};
ghost use Rattle.explain_heard.specs.Stops.{StopsInLine};
ghost use Rattle.why_lines.specs.Unused.{is_shown_by, shows, symbol_text, unused_prb_of, unused_prbs, unused_prbs_at, unused_prbs_with, unused_line_of, unused_related};

use air_source::{AirFault, Side};
use explain_heard::{LineRuns, LineSink, RunItem};
use explain_model::{CellRun, DataRecord, ExplainLine, PrbRun, SymbolKey, SymbolPlace};
use explain_records::{giver_of, is_next};
use unit_model::{SymbolStart, is_from};

/// A symbol of a unit.
#[derive(Clone, Copy)]
pub(crate) struct UnitSymbol {
    pub(crate) side: Side,
    pub(crate) start: SymbolStart,
}

/// A block that no cell shows: its PRB, and the number of the arrival that made its message whole.
#[derive(Clone, Copy)]
pub(crate) struct UnusedPrb {
    pub(crate) run: PrbRun,
    pub(crate) from: u32,
}

impl RunItem for UnusedPrb {
    ghost use Rattle.why_lines.specs.UnusedSteps.{next_unused};

    ghost related = { unused_related };

    ghost place = { λ a. a.run.prb };

    ghost run_line = { unused_line_of };

    ghost steps = { next_unused };

    fn leads_to(&self, next: &Self) -> bool {
        self.run.section == next.run.section
            && self.from == next.from
            && is_next(self.run.prb, next.run.prb)
    }

    fn line(&self, num: u16) -> ExplainLine {
        ExplainLine::Unused {
            run: PrbRun {
                num: u32::from(num),
                ..self.run
            },
            from: self.from,
        }
    }
}

/// The key of a symbol.
pub(crate) fn key_of(of: &UnitSymbol) -> SymbolKey
    ensures { result ≡ key_at of.now.side of.now.start }
{
    SymbolKey {
        side: of.side,
        ep: of.start.ep,
        slot: of.start.slot,
        symbol: of.start.symbol,
    }
}

/// Whether a run is of an endpoint's id and shows the block of a PRB.
fn shows(r: &CellRun, id: u16, prb: u16) -> bool
    ensures { result ≡ shows id prb r.now }
{
    r.id == id && is_from(r.prb, r.count, prb) && r.shown
}

/// Whether one of the runs of a symbol is of an endpoint's id and shows the block of a PRB.
fn is_shown(cells: &[CellRun], id: u16, prb: u16) -> bool
    ensures { result ≡ is_shown_by cells.now id prb }
{
    cells.iter().any(|r| shows(r, id, prb))
}

/// The block of a PRB that a section gave.
fn unused_prb(of: &UnitSymbol, prb: u16, r: &DataRecord) -> UnusedPrb
    ensures { result ≡ unused_prb_of of.now (record { prb = prb; section = r.now.section; number = r.now.number }) }
{
    UnusedPrb {
        run: PrbRun {
            side: of.side,
            at: of.start.start,
            place: SymbolPlace {
                id: of.start.endpoint.id,
                slot: of.start.slot,
                symbol: of.start.symbol,
            },
            prb,
            num: 1,
            section: r.section,
        },
        from: r.number,
    }
}

/// Puts the block of a PRB of a symbol, if a section gave it one.
fn put_given<W: LineSink>(
    of: &UnitSymbol,
    given: &[DataRecord],
    prb: u16,
    lines: &mut LineRuns<UnusedPrb>,
    out: &mut W,
) -> Result<(), AirFault>
    requires { prb < 2 ^ 16 - 1 }
    ensures ok { OnOk result (HasPut unused_related unused_line_of W.grew (unused_prbs_with given.now of.now prb) lines.old out.old lines.new out.new) }
    ensures stop { IfErr result (λ f. StopsPutting unused_related unused_line_of W.grew (W.stopped f) (unused_prbs_with given.now of.now prb) lines.old out.old out.new) }
    ensures same { W.same out.old out.new }
    ensures cause { HasAirCause (W.faults out.old) (W.faults out.new) result }
{
    match giver_of(given, key_of(of), prb) {
        Some(r) => lines.put(unused_prb(of, prb, &r), out),
        None => Ok(()),
    }
}

/// Puts the block of a PRB of a symbol, where it has one and no cell shows it.
fn put_block<W: LineSink>(
    of: &UnitSymbol,
    given: &[DataRecord],
    cells: &[CellRun],
    prb: u16,
    lines: &mut LineRuns<UnusedPrb>,
    out: &mut W,
) -> Result<(), AirFault>
    requires { prb < 2 ^ 16 - 1 }
    ensures ok { OnOk result (HasPut unused_related unused_line_of W.grew (unused_prbs_at given.now cells.now of.now prb) lines.old out.old lines.new out.new) }
    ensures stop { IfErr result (λ f. StopsPutting unused_related unused_line_of W.grew (W.stopped f) (unused_prbs_at given.now cells.now of.now prb) lines.old out.old out.new) }
    ensures same { W.same out.old out.new }
    ensures cause { HasAirCause (W.faults out.old) (W.faults out.new) result }
{
    if is_shown(cells, of.start.endpoint.id, prb) {
        Ok(())
    } else {
        put_given(of, given, prb, lines, out)
    }
}

/// Puts the blocks of a symbol that no cell shows.
fn put_blocks<W: LineSink>(
    of: &UnitSymbol,
    given: &[DataRecord],
    cells: &[CellRun],
    lines: &mut LineRuns<UnusedPrb>,
    out: &mut W,
) -> Result<(), AirFault>
    ensures ok { OnOk result (HasPut unused_related unused_line_of W.grew (unused_prbs given.now cells.now of.now) lines.old out.old lines.new out.new) }
    ensures stop { IfErr result (λ f. StopsPutting unused_related unused_line_of W.grew (W.stopped f) (unused_prbs given.now cells.now of.now) lines.old out.old out.new) }
    ensures same { W.same out.old out.new }
    ensures cause { HasAirCause (W.faults out.old) (W.faults out.new) result }
{
    for prb in 0..of.start.endpoint.prbs {
        put_block(of, given, cells, prb, lines, out)?;
    }
    Ok(())
}

/// Tells the blocks of a symbol that no cell shows, by the symbol's sections of data and runs of cells.
pub(crate) fn tell_symbol<W: LineSink>(
    of: &UnitSymbol,
    given: &[DataRecord],
    cells: &[CellRun],
    out: &mut W,
) -> Result<(), AirFault>
    ensures heard { OnOk result (W.grew out.old (symbol_text given.now cells.now of.now) out.new) }
    ensures stop { IfErr result (λ f. StopsInLine W.grew (W.stopped f) (symbol_text given.now cells.now of.now) out.old out.new) }
    ensures same { W.same out.old out.new }
    ensures cause { HasAirCause (W.faults out.old) (W.faults out.new) result }
{
    let mut lines = LineRuns::new();
    put_blocks(of, given, cells, &mut lines, out)?;
    lines.finish(out)
}
