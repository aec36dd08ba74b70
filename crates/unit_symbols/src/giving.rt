// The next message.
ghost use Rattle.std.specs.Prelude.{◌≡◌, [], IfNone, IfSome};
ghost use Rattle.std.specs.Int.{int_max};
ghost use Rattle.unit_model.specs.declared.symbol_start.SymbolStart.{SymbolStart as SpecStart};
ghost use Rattle.unit_cells.specs.Cells.{cells_uplink};
ghost use Rattle.unit_symbols.specs.Cursors.{IsFirstJob, left_in};
ghost use Rattle.unit_symbols.specs.Symbols.{IsSymbol};

use crate::cursor::{JobCursor, NextJob};
use crate::first_symbol;
use crate::left::{first_left, given_of};
use fh_base::Ticks;
use unit_cells::UnitCells;

/// The first message that was not given: by the start of its symbol, at one tick by endpoint, slot and symbol, and in one symbol
/// by startPrbc, numPrbc, sectionId and filterIndex and in the order of acceptance (this project's profile).
pub fn next_job(cells: &UnitCells, cursor: &JobCursor) -> Option<NextJob>
    ensures found { IfSome result (λ n. IsFirstJob cells.now cursor.now n) }
    ensures none { IfNone result ((m : SpecStart) → IsSymbol cells.now m → left_in (cells_uplink cells.now) cursor.now m ≡ []) }
{
    let symbol = first_symbol(cells, cursor)?;
    let uplink = cells.ring(symbol.ep).uplink(symbol.slot);
    let job = first_left(cursor, &symbol, uplink)?;
    Some(NextJob { symbol, job })
}

/// The later one of two ticks.
fn later(a: Ticks, b: Ticks) -> Ticks
    ensures { result.0 ≡ int_max a.0 b.0 }
{
    if a.0 < b.0 { b } else { a }
}

impl JobCursor {
    ghost use Rattle.std.specs.Prelude.{None};
    ghost use Rattle.unit_symbols.specs.Cursors.{GivenOne, IsFirstJob, Settled, is_past};
    ghost use Rattle.unit_cells.specs.Cells.{CellsValue};

    /// Where all messages of symbols that start before a tick were given, and none of the others.
    pub fn start(since: Ticks) -> JobCursor
        ensures { result ≡ record { since = since; last = None; given = 0 } }
    {
        JobCursor {
            since,
            last: None,
            given: 0,
        }
    }

    /// After this message was given, which was the first that was not.
    pub fn after(&self, next: &NextJob) -> JobCursor
        ensures { (v : CellsValue) → IsFirstJob v self.now next.now → GivenOne v self.now next.now result }
    {
        // one slot has at most 64 messages in a symbol
        let given = given_of(self, &next.symbol).unwrap_or(0);
        JobCursor {
            since: self.since,
            last: Some(next.symbol),
            given: given.saturating_add(1),
        }
    }

    /// Whether the last symbol of which messages were given starts before a clock, also where there is none.
    fn is_past(&self, clock: Ticks) -> bool
        ensures { result ≡ is_past clock.0 self.now.last }
    {
        match &self.last {
            None => true,
            Some(last) => last.start.0 < clock.0,
        }
    }

    /// At a clock, in ticks, where all messages of symbols that start before it were given.
    pub fn settled(&self, clock: Ticks) -> JobCursor
        ensures { Settled clock.0 self.now result }
    {
        let since = later(self.since, clock);
        if self.is_past(clock) {
            JobCursor::start(since)
        } else {
            JobCursor { since, ..*self }
        }
    }
}
