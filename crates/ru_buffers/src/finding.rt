// What is next in a unit's memory.
ghost use Rattle.ru_buffers.specs.Calls.{IsNextMessage, IsNextSymbol};

use fh_base::Ticks;
use unit_cells::UnitCells;
use unit_model::SymbolStart;
use unit_symbols::{JobCursor, NextJob, first_left, next_job};

/// The first symbol that starts after a time and of which something is left to be reported.
pub(crate) fn find_symbol(cells: &UnitCells, after: Ticks) -> Option<SymbolStart>
    ensures { IsNextSymbol cells.now after.0 result }
{
    first_left(cells, after)
}

/// The first message that was not given.
pub(crate) fn find_message(cells: &UnitCells, cursor: &JobCursor) -> Option<NextJob>
    ensures { IsNextMessage cells.now cursor.now result }
{
    next_job(cells, cursor)
}
