// The lines of blocks that no cell shows, symbol by symbol.
ghost use Rattle.std.specs.Prelude.{◌++◌, OnOk, IfErr};
ghost use Rattle.air_source.specs.declared.events.Side.TheVariants.{Ru, Du};
ghost use Rattle.air_source.specs.Causes.{HasAirCause};
ghost use Rattle.explain_heard.specs.Stops.{StopsInLine, StopsSome};
ghost use Rattle.why_lines.specs.Unused.{symbol_text_in, symbols_text, unused_text};

use crate::blocks::{UnitSymbol, key_of, tell_symbol};
use crate::starts::symbols_given;
use air_source::{AirFault, Side};
use explain_heard::LineSink;
use explain_model::CellRun;
use explain_records::{OrderedKept, OrderedRecords};
use std::alloc::Global;
use unit_model::SymbolStart;
use window_config::EndpointConfig;

/// Tells the blocks of a symbol that no cell shows.
fn tell_start<W: LineSink>(
    kept: &OrderedKept,
    cells: &OrderedRecords<CellRun>,
    side: Side,
    start: &SymbolStart,
    out: &mut W,
) -> Result<(), AirFault>
    ensures heard { OnOk result (W.grew out.old (symbol_text_in kept.now cells.now side start.now) out.new) }
    ensures stop { IfErr result (λ f. StopsInLine W.grew (W.stopped f) (symbol_text_in kept.now cells.now side start.now) out.old out.new) }
    ensures same { W.same out.old out.new }
    ensures cause { HasAirCause (W.faults out.old) (W.faults out.new) result }
{
    let of = UnitSymbol {
        side,
        start: *start,
    };
    let key = key_of(&of);
    tell_symbol(&of, kept.given_at(key), cells.of_symbol(key), out)
}

/// Tells the blocks of some symbols that no cell shows.
fn tell_symbols<W: LineSink>(
    kept: &OrderedKept,
    cells: &OrderedRecords<CellRun>,
    side: Side,
    symbols: &[SymbolStart],
    out: &mut W,
) -> Result<(), AirFault>
    ensures heard { OnOk result (W.grew out.old (symbols_text kept.now cells.now side symbols.now) out.new) }
    ensures stop { IfErr result (λ f. StopsInLine W.grew (W.stopped f) (symbols_text kept.now cells.now side symbols.now) out.old out.new) }
    ensures same { W.same out.old out.new }
    ensures cause { HasAirCause (W.faults out.old) (W.faults out.new) result }
{
    for start in symbols {
        tell_start(kept, cells, side, start, out)?;
    }
    Ok(())
}

/// Tells the blocks of the symbols of both units that no cell shows, first those of the radio unit.
fn tell_units<W: LineSink>(
    kept: &OrderedKept,
    cells: &OrderedRecords<CellRun>,
    radio: &[SymbolStart],
    distributed: &[SymbolStart],
    out: &mut W,
) -> Result<(), AirFault>
    ensures heard { OnOk result (W.grew out.old (symbols_text kept.now cells.now Ru radio.now ++ symbols_text kept.now cells.now Du distributed.now) out.new) }
    ensures stop { IfErr result (λ f. StopsInLine W.grew (W.stopped f) (symbols_text kept.now cells.now Ru radio.now ++ symbols_text kept.now cells.now Du distributed.now) out.old out.new) }
    ensures same { W.same out.old out.new }
    ensures cause { HasAirCause (W.faults out.old) (W.faults out.new) result }
{
    tell_symbols(kept, cells, Side::Ru, radio, out)?;
    tell_symbols(kept, cells, Side::Du, distributed, out)
}

/// Tells the blocks that were taken and that no cell shows: first those of the radio unit, at a unit symbol by symbol in the order in
/// which the symbols start, and of a symbol a line for each run of PRBs that one message gave under one section id.
///
/// The symbols are listed first, in memory from `alloc`: where that is refused no line is told. A section on a slot or a symbol that its
/// endpoint cannot have is answered so too; no unit judges one.
pub fn tell_unused<W: LineSink>(
    alloc: Global,
    kept: &OrderedKept,
    cells: &OrderedRecords<CellRun>,
    endpoints: &[EndpointConfig],
    out: &mut W,
) -> Result<(), AirFault>
    ensures heard { OnOk result (W.grew out.old (unused_text endpoints.now kept.now cells.now) out.new) }
    ensures stop { IfErr result (λ f. StopsSome W.grew (W.stopped f) (unused_text endpoints.now kept.now cells.now) out.old out.new) }
    ensures same { W.same out.old out.new }
    ensures cause { HasAirCause (W.faults out.old) (W.faults out.new) result }
{
    let given = kept.given();
    let radio = symbols_given(alloc, endpoints, Side::Ru, given)?;
    let distributed = symbols_given(alloc, endpoints, Side::Du, given)?;
    tell_units(kept, cells, radio.as_slice(), distributed.as_slice(), out)
}
