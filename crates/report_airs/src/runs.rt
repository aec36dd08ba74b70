// A run of cells of one symbol.
ghost use Rattle.std.specs.Prelude.{◌≡◌, ◌<◌, IsTrue};
ghost use Rattle.report_airs.specs.Totals.{IsWithin};
ghost use Rattle.report_airs.specs.States.{opened, goes_on_with, grown, with_cell};

use crate::places::{SymbolPlace, place_of, same_place};
use crate::totals::{Totals, cell_totals, plus};
use air_source::AirCell;
use std::marker::Model;

/// A run of cells of one symbol whose PRBs rise, so that there are at most 65,536 of them and no sum overflows.
#[derive(Clone, Copy)]
pub struct Run {
    place: SymbolPlace,
    // the PRB of the last cell
    prb: u16,
    totals: Totals,
}

impl Model for Run {
    ghost use Rattle.std.specs.Prelude.{◌+◌, ◌*◌};
    ghost use Rattle.report_airs.specs.Totals.{IsWithin};
    ghost use Rattle.report_airs.specs.OpenRuns.{OpenRun};

    ghost Value = { OpenRun };

    ghost view = { λ r. record { place = r.place; prb = r.prb; totals = r.totals } };

    ghost invariant = { λ r. IsWithin (12 * (r.prb + 1)) r.totals };

    ghost inverse = { λ v. record { place = v.place; prb = v.prb; totals = v.totals } };
}

impl Run {
    /// The run of one cell.
    pub fn new(c: &AirCell) -> Run
        ensures { result ≡ opened c.now }
    {
        Run {
            place: place_of(c),
            prb: c.prb,
            totals: cell_totals(c),
        }
    }

    /// Whether a cell goes on the run: it is of the same symbol, and its PRB is greater than that of the last cell.
    pub fn goes_on_with(&self, c: &AirCell) -> bool
        ensures { result ≡ goes_on_with self.now c.now }
    {
        self.prb < c.prb && same_place(&self.place, &place_of(c))
    }

    // The run with the sums of one more cell, which has a greater PRB.
    fn grown(&self, prb: u16, cell: Totals) -> Run
        requires rises { self.now.prb < prb }
        requires cell { IsWithin 12 cell }
        ensures { result ≡ grown self.now prb cell }
    {
        Run {
            place: self.place,
            prb,
            totals: plus(self.totals, cell),
        }
    }

    /// The run with one more cell after it.
    pub fn with(&self, c: &AirCell) -> Run
        requires { IsTrue (goes_on_with self.now c.now) }
        ensures { result ≡ with_cell self.now c.now }
    {
        self.grown(c.prb, cell_totals(c))
    }

    /// The symbol of its cells.
    pub fn place(&self) -> SymbolPlace
        ensures { result ≡ self.now.place }
    {
        self.place
    }

    /// The sums of its cells.
    pub fn totals(&self) -> Totals
        ensures { result ≡ self.now.totals }
    {
        self.totals
    }
}
