// What is known of the claims of a symbol.
ghost use Rattle.std.specs.Prelude.{◌≡◌, ℕ, ◌+◌, ◌^◌, ◌<◌, ◌≤◌, ◌&&◌, nat_le, nat_lt, min, max, true, false};
ghost use Rattle.unit_model.specs.Claims.{is_from, is_claimed, is_overlapped};
ghost use Rattle.fh_base.specs.Lists.{every, some};
ghost use Rattle.slot_rings.specs.Places.{claim_in};
ghost use Rattle.slot_rings.specs.Rows.{row_at, run_claims, row_claims, claimed_run, Grows, HasNoneOutside};
ghost use Rattle.slot_rings.specs.declared.rows.Row.TheVariants.{Known};
ghost use Rattle.fh_base.specs.declared.symbols.TheConstants.{SLOT_SYMBOLS};

use crate::claims::{CellClaims, NONE};
use fh_base::SLOT_SYMBOLS;
use unit_model::Allocation;

/// Cells of a symbol with claims on the same elements under one section id. No other cell of the symbol has any.
#[derive(Clone, Copy)]
pub(crate) struct Run {
    pub first: u16,
    pub count: u16,
    pub id: u16,
    pub claimed: u16,
}

/// What is known of the claims of a symbol.
#[derive(Clone, Copy)]
pub(crate) enum Row {
    /// They are those of a run.
    Known(Run),
    /// Nothing.
    Mixed,
}

/// No claims.
pub(crate) const EMPTY: Row = Row::Known(Run {
    first: 0,
    count: 0,
    id: 0,
    claimed: 0,
});

/// PRBs of a symbol from `first` to before `end`.
#[derive(Clone, Copy)]
pub struct Span {
    pub first: u16,
    pub end: u16,
}

/// The PRBs that may have claims, of a symbol on a carrier of so many: no other cell of the symbol has one.
pub(crate) fn span_of(row: Row, prbs: u16) -> Span
    ensures within { result.end ≤ prbs }
    ensures none { HasNoneOutside prbs row result.first result.end }
{
    match row {
        Row::Known(run) => Span {
            first: run.first,
            end: run.first.saturating_add(run.count).min(prbs),
        },
        Row::Mixed => Span {
            first: 0,
            end: prbs,
        },
    }
}

impl Run {
    /// The claims of its cells, idle or not.
    fn claims(self) -> CellClaims
        ensures { result ≡ run_claims self }
    {
        CellClaims {
            id: self.id,
            claimed: self.claimed,
            idle: 0,
            reported: false,
        }
    }

    /// Whether all of some cells of the symbol are its.
    fn covers(self, first: usize, count: usize) -> bool
        requires { first + count < 2 ^ 32 }
        ensures { result ≡ (nat_le self.first first && nat_le (first + count) (self.first + self.count)) }
    {
        let start = self.first as usize;
        start <= first && first + count <= start + self.count as usize
    }

    /// Whether one of some cells of the symbol is its.
    fn meets(self, first: usize, count: usize) -> bool
        requires { first + count < 2 ^ 32 }
        ensures { result ≡ nat_lt (max self.first first) (min (self.first + self.count) (first + count)) }
    {
        let start = self.first as usize;
        let end = start + self.count as usize;
        start.max(first) < end.min(first + count)
    }

    /// Whether each of some cells of the symbol has claims on each element that a mask names, under this id.
    pub(crate) fn has(self, first: usize, count: usize, id: u16, mask: u16) -> bool
        requires some { 0 < count }
        requires small { first + count < 2 ^ 32 }
        ensures { result ≡ every first count (λ n. is_claimed id mask (claim_in (row_claims self n))) }
    {
        if self.covers(first, count) {
            self.claims().has(id, mask)
        } else {
            NONE.has(id, mask)
        }
    }

    /// Whether one of some cells of the symbol has a claim against this id and mask.
    pub(crate) fn clashes(self, first: usize, count: usize, id: u16, mask: u16) -> bool
        requires { first + count < 2 ^ 32 }
        ensures { result ≡ some first count (λ n. is_overlapped id mask (claim_in (row_claims self n))) }
    {
        self.meets(first, count) && self.claims().clashes(id, mask)
    }

    /// One run of two with the same claims, where they are side by side.
    fn joined(self, more: Run) -> Row
        requires id { more.id ≡ self.id }
        requires claimed { more.claimed ≡ self.claimed }
        ensures { Grows more (Known self) result }
    {
        match self.count.checked_add(more.count) {
            None => Row::Mixed,
            Some(count) => {
                if u32::from(self.first) + u32::from(self.count) == u32::from(more.first) {
                    Row::Known(Run { count, ..self })
                } else if u32::from(more.first) + u32::from(more.count) == u32::from(self.first) {
                    Row::Known(Run { count, ..more })
                } else {
                    Row::Mixed
                }
            }
        }
    }

    /// What is known of the symbol after the claims of a further run.
    fn with(self, more: Run) -> Row
        ensures { Grows more (Known self) result }
    {
        if self.count == 0 {
            Row::Known(more)
        } else if self.id == more.id && self.claimed == more.claimed {
            self.joined(more)
        } else {
            Row::Mixed
        }
    }
}

impl Row {
    /// What is known of the symbol after the claims of a run.
    fn with(self, more: Run) -> Row
        ensures { Grows more self result }
    {
        match self {
            Row::Known(run) => run.with(more),
            Row::Mixed => Row::Mixed,
        }
    }
}

/// What is known of a symbol.
pub(crate) fn row_at(rows: &[Row], symbol: usize) -> Row
    ensures { result ≡ row_at rows.now symbol }
{
    if symbol >= SLOT_SYMBOLS {
        Row::Mixed
    } else if symbol < rows.len() {
        rows[symbol]
    } else {
        EMPTY
    }
}

/// The run of cells that an allocation claims in each of its symbols.
fn run_of(a: &Allocation) -> Run
    ensures { result ≡ claimed_run a.now }
{
    let prbs = a.prbs();
    Run {
        first: prbs.first,
        count: prbs.count,
        id: a.section,
        claimed: a.mask,
    }
}

/// Notes the claims of an allocation.
pub(crate) fn note(rows: &mut [Row; SLOT_SYMBOLS], a: &Allocation)
    requires { a.now.symbol + a.now.num_symbol ≤ SLOT_SYMBOLS }
    ensures grown { (s : ℕ) → is_from a.now.symbol a.now.num_symbol s ≡ true → Grows (claimed_run a.now) (row_at rows.old s) (row_at rows.new s) }
    ensures others { (s : ℕ) → is_from a.now.symbol a.now.num_symbol s ≡ false → row_at rows.new s ≡ row_at rows.old s }
{
    let more = run_of(a);
    for symbol in a.symbol..a.symbol + a.num_symbol {
        let symbol = symbol as usize;
        rows[symbol] = rows[symbol].with(more);
    }
}
