// A run of cells.
ghost use Rattle.std.specs.Prelude.{◌≡◌, ◌+◌, ◌≤◌};
ghost use Rattle.air_source.specs.Units.{same_side};
ghost use Rattle.explain_units.specs.Runs.{cells_of};
ghost use Rattle.explain_model.specs.Cells.{extends, is_of_run, run_from, same_word};

use air_source::{AirCell, Side};
use explain_model::{CellWord, PrbRun, SymbolPlace};
use unit_model::same_slot;

/// Cells of one symbol that follow one another, in all but the PRB the same.
#[derive(Clone, Copy)]
pub struct OpenRun {
    pub run: PrbRun,
    pub mask: u16,
    pub word: CellWord,
}

// Whether both are the same unit.
fn same_side(a: Side, b: Side) -> bool
    ensures { result ≡ same_side a b }
{
    match a {
        Side::Ru => match b {
            Side::Ru => true,
            Side::Du => false,
        },
        Side::Du => match b {
            Side::Ru => false,
            Side::Du => true,
        },
    }
}

// Whether both show the same.
fn same_word(a: CellWord, b: CellWord) -> bool
    ensures { result ≡ same_word a b }
{
    match a {
        CellWord::Shown { from } => match b {
            CellWord::Shown { from: other } => from == other,
            CellWord::Missing => false,
        },
        CellWord::Missing => match b {
            CellWord::Shown { .. } => false,
            CellWord::Missing => true,
        },
    }
}

impl OpenRun {
    /// The run of one cell.
    pub fn of(c: &AirCell, word: CellWord) -> OpenRun
        ensures { cells_of result ≡ run_from c.now word 1 }
    {
        OpenRun {
            run: PrbRun {
                side: c.side,
                at: c.at,
                place: SymbolPlace {
                    id: c.id,
                    slot: c.slot,
                    symbol: c.symbol,
                },
                prb: c.prb,
                num: 1,
                section: c.section,
            },
            mask: c.mask,
            word,
        }
    }

    // Whether a cell is of the same symbol of the same unit, and was claimed alike.
    fn is_of(&self, c: &AirCell) -> bool
        ensures { result ≡ is_of_run (cells_of self.now) c.now }
    {
        same_side(self.run.side, c.side)
            && self.run.at.0 == c.at.0
            && self.run.place.id == c.id
            && same_slot(&self.run.place.slot, &c.slot)
            && self.run.place.symbol == c.symbol
            && self.run.section == c.section
            && self.mask == c.mask
    }

    /// Whether a cell with this word is the next one of the run.
    pub fn goes_on_with(&self, c: &AirCell, word: CellWord) -> bool
        ensures { result ≡ extends (cells_of self.now) c.now word }
    {
        self.is_of(c)
            && same_word(self.word, word)
            && u64::from(self.run.prb) + u64::from(self.run.num) == u64::from(c.prb)
    }
}
