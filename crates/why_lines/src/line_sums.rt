// What a line adds to the sums.
ghost use Rattle.std.specs.Prelude.{◌≡◌};
ghost use Rattle.why_lines.specs.Sums.{sum_of_line, sum_of_run, sum_with};

use crate::words::SumWord;
use air_source::Side;
use explain_model::{CellWord, ExplainLine, PrbRun};

/// So many cells or PRBs of a unit and of the endpoint with this id.
#[derive(Clone, Copy)]
pub(crate) struct LineSum {
    pub(crate) side: Side,
    pub(crate) id: u16,
    pub(crate) word: SumWord,
    pub(crate) number: u32,
}

/// Those of a run.
fn sum_with(run: &PrbRun, word: SumWord) -> LineSum
    ensures { result ≡ sum_with run.now word }
{
    LineSum {
        side: run.side,
        id: run.place.id,
        word,
        number: run.num,
    }
}

/// What a run of cells adds: why cells are missing is told by lines of their own.
fn sum_of_run(run: &PrbRun, word: CellWord) -> Option<LineSum>
    ensures { result ≡ sum_of_run run.now word }
{
    match word {
        CellWord::Shown { .. } => Some(sum_with(run, SumWord::Shown)),
        CellWord::Missing => None,
    }
}

/// What a line adds to the sums, if anything.
pub(crate) fn sum_of_line(line: &ExplainLine) -> Option<LineSum>
    ensures { result ≡ sum_of_line line.now }
{
    match line {
        ExplainLine::Cells { run, word, .. } => sum_of_run(run, *word),
        ExplainLine::WhyMissing { run, reason, .. } => {
            Some(sum_with(run, SumWord::Missing(reason.word())))
        }
        ExplainLine::WhySilent { run, reason, .. } => {
            Some(sum_with(run, SumWord::Silent(reason.word())))
        }
        ExplainLine::Head { .. }
        | ExplainLine::Window { .. }
        | ExplainLine::Endpoint(_)
        | ExplainLine::Frame { .. }
        | ExplainLine::Measure { .. }
        | ExplainLine::Other { .. }
        | ExplainLine::Short { .. }
        | ExplainLine::Unknown { .. }
        | ExplainLine::Command { .. }
        | ExplainLine::Control(_)
        | ExplainLine::Fragment { .. }
        | ExplainLine::Whole(_)
        | ExplainLine::Data(_)
        | ExplainLine::Delay { .. }
        | ExplainLine::Unused { .. }
        | ExplainLine::Margin { .. }
        | ExplainLine::ShownCells { .. }
        | ExplainLine::MissingCells { .. }
        | ExplainLine::SilentPrbs { .. }
        | ExplainLine::Count { .. }
        | ExplainLine::End => None,
    }
}
