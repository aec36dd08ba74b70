// The report of a symbol.
ghost use Rattle.std.specs.Prelude.{◌≡◌, ℕ, ◌<◌, ◌≤◌, [], ◌∷◌, IfErr, OnOk, false, map, option_to_list};
ghost use Rattle.air_source.specs.Causes.{HasAirCause};
ghost use Rattle.air_source.specs.declared.events.Event.TheVariants.{Cell as Reported};
ghost use Rattle.unit_symbols.specs.DueSymbols.{CountsTold, ReportsTold, StopsAtCell, left_at};
ghost use Rattle.unit_symbols.specs.Symbols.{IsSymbol};
ghost use Rattle.slot_rings.specs.Places.{is_in_use};
ghost use Rattle.slot_rings.specs.Symbols.{lent_claim};
ghost use Rattle.unit_symbols.specs.Tellings.{StopsAtPrb, StopsInOne, lent_below, lent_told};

use air_source::{Air, AirCell, AirFault, Side};
use fault_counters::Counters;
use slot_rings::SymbolCells;
use unit_cells::UnitCells;
use unit_model::{SymbolStart, block_counter, samples_under};

/// How far the cells of a symbol were told to an air.
#[derive(Drop)]
struct Telling {
    /// The number of PRBs before the one in which the air stopped, or of all.
    prbs: u16,
    /// The air's answer.
    answer: Result<(), AirFault>,
}

/// The report of a cell of a symbol, if it is in use and was not reported.
fn left_cell(cells: &SymbolCells<'_>, m: &SymbolStart, prb: u16) -> Option<AirCell>
    ensures { option_to_list result ≡ lent_told cells.now m.now prb }
{
    let used = cells.cell(prb);
    if used.reported || used.mask == 0 {
        return None;
    }
    let block = cells.block(prb).copied();
    Some(AirCell {
        side: Side::Ru,
        at: m.start,
        id: m.endpoint.id,
        slot: m.slot,
        symbol: m.symbol,
        prb,
        section: used.section,
        mask: used.mask,
        block: samples_under(used.section, block),
    })
}

/// Hands an air a cell of a symbol if it is in use and was not reported, and counts it. After an error nothing is counted.
fn tell_cell<A: Air>(
    cells: &SymbolCells<'_>,
    counters: &mut Counters,
    m: &SymbolStart,
    prb: u16,
    air: &mut A,
) -> Result<(), AirFault>
    ensures heard { OnOk result (A.grew air.old (map Reported (lent_told cells.now m.now prb)) air.new) }
    ensures counts { OnOk result (CountsTold (lent_told cells.now m.now prb) counters.old counters.new) }
    ensures stop { IfErr result (λ f. StopsInOne (A.stopped f) (lent_told cells.now m.now prb) counters.old counters.new air.old air.new) }
    ensures same { A.same air.old air.new }
    ensures cause { HasAirCause (A.faults air.old) (A.faults air.new) result }
{
    match left_cell(cells, m, prb) {
        None => Ok(()),
        Some(cell) => {
            air.cell(&cell)?;
            counters.add(block_counter(cell.block));
            Ok(())
        }
    }
}

/// Hands an air the cells of a symbol, and counts those that it heard. It looks at no PRB outside of those where cells are in use.
fn tell_cells<A: Air>(
    cells: &SymbolCells<'_>,
    counters: &mut Counters,
    m: &SymbolStart,
    air: &mut A,
) -> Telling
    requires span { cells.now.span.end ≤ m.now.endpoint.prbs }
    requires unused { (prb : ℕ) → prb < m.now.endpoint.prbs → (cells.now.span.first ≤ prb → cells.now.span.end ≤ prb)
        → is_in_use (lent_claim cells.now prb) ≡ false }
    ensures within { result.prbs ≤ m.now.endpoint.prbs }
    ensures all { OnOk result.answer (result.prbs ≡ m.now.endpoint.prbs) }
    ensures heard { OnOk result.answer (A.grew air.old (map Reported (lent_below cells.now m.now result.prbs)) air.new) }
    ensures counts { CountsTold (lent_below cells.now m.now result.prbs) counters.old counters.new }
    ensures stop { IfErr result.answer (λ f. StopsAtPrb A.grew (A.stopped f) cells.now m.now result.prbs air.old air.new) }
    ensures same { A.same air.old air.new }
    ensures cause { HasAirCause (A.faults air.old) (A.faults air.new) result.answer }
{
    let end = cells.span.end;
    let first = cells.span.first.min(end);
    for prb in first..end {
        match tell_cell(cells, counters, m, prb, air) {
            Ok(()) => {}
            Err(fault) => {
                return Telling {
                    prbs: prb,
                    answer: Err(fault),
                };
            }
        }
    }
    Telling {
        prbs: m.endpoint.prbs,
        answer: Ok(()),
    }
}

/// Hands an air each cell of a symbol that is in use and was not reported, in the order of PRBs, sets it as reported and counts it. After an
/// error the cell in which the air stopped, and those after it, are neither set as reported nor counted.
///
/// # Errors
///
/// The air's: the fault with which it stopped.
pub fn report<A: Air>(
    cells: &mut UnitCells,
    counters: &mut Counters,
    m: &SymbolStart,
    air: &mut A,
) -> Result<(), AirFault>
    requires { IsSymbol cells.old m.now }
    ensures heard { OnOk result (A.grew air.old (map Reported (left_at cells.old m.now)) air.new) }
    ensures reports { OnOk result (ReportsTold m.now (left_at cells.old m.now) cells.old cells.new) }
    ensures counts { OnOk result (CountsTold (left_at cells.old m.now) counters.old counters.new) }
    ensures stop { IfErr result (λ f. StopsAtCell A.grew (A.stopped f) m.now cells.old cells.new counters.old counters.new air.old air.new) }
    ensures same { A.same air.old air.new }
    ensures cause { HasAirCause (A.faults air.old) (A.faults air.new) result }
{
    let lent = cells.ring(m.ep).symbol_cells(m.slot, m.symbol);
    let told = tell_cells(&lent, counters, m, air);
    cells.set_used_reported(m.ep, m.slot, m.symbol, told.prbs);
    told.answer
}
