// The run of cells that may go on.
ghost use Rattle.std.specs.Prelude.{◌≡◌, ◌+◌, [], ◌∷◌, ◌++◌, Some, None, IfErr, OnOk};
ghost use Rattle.air_source.specs.Causes.{HasAirCause};
ghost use Rattle.explain_air.specs.Notes.{HasNoted};
ghost use Rattle.explain_air.specs.Runs.{open_of};
ghost use Rattle.explain_units.specs.Runs.{cells_of};
ghost use Rattle.explain_model.specs.declared.values.ExplainLine.TheVariants as line;
ghost use Rattle.explain_model.specs.Cells.{closing, longer, run_lines, run_with};
ghost use Rattle.explain_heard.specs.Stops.{StopsSome};

use crate::notes::{Notes, note_and_put};
use air_source::{AirCell, AirFault};
use explain_heard::LineSink;
use explain_model::{CellWord, ExplainLine};
use explain_units::OpenRun;

/// The run of cells that may go on, and what is noted of the lines before it.
#[derive(Drop)]
pub(crate) struct RunLines {
    pub(crate) run: Option<OpenRun>,
    pub(crate) notes: Notes,
}

/// The line of a run.
fn line_of(run: &OpenRun) -> ExplainLine
    ensures { result ≡ line.Cells (cells_of run.now).run (cells_of run.now).mask (cells_of run.now).word }
{
    ExplainLine::Cells {
        run: run.run,
        mask: run.mask,
        word: run.word,
    }
}

/// The run with a cell more, which is the next one.
fn with_next(run: &OpenRun, c: &AirCell) -> OpenRun
    requires { run.now.run.prb + run.now.run.num ≡ c.now.prb }
    ensures { cells_of result ≡ longer (cells_of run.now) }
{
    let mut longer = *run;
    longer.run.num = u32::from(c.prb - run.run.prb) + 1;
    longer
}

impl RunLines {
    /// Ends the run, if there is one: its line is told. After an error the run is still there.
    pub(crate) fn end<W: LineSink>(&mut self, out: &mut W) -> Result<(), AirFault>
        ensures run { OnOk result (open_of self.new ≡ None) }
        ensures noted { OnOk result (HasNoted self.old.notes (run_lines (open_of self.old)) self.new.notes) }
        ensures heard { OnOk result (W.grew out.old (run_lines (open_of self.old)) out.new) }
        ensures stop { IfErr result (λ f. StopsSome W.grew (W.stopped f) (run_lines (open_of self.old)) out.old out.new) }
        ensures same { W.same out.old out.new }
        ensures cause { HasAirCause (W.faults out.old) (W.faults out.new) result }
    {
        match &self.run {
            None => Ok(()),
            Some(run) => {
                note_and_put(&line_of(run), &mut self.notes, out)?;
                self.run = None;
                Ok(())
            }
        }
    }

    /// Ends the run, if there is one, and tells a line.
    pub(crate) fn line<W: LineSink>(
        &mut self,
        line: &ExplainLine,
        out: &mut W,
    ) -> Result<(), AirFault>
        ensures run { OnOk result (open_of self.new ≡ None) }
        ensures noted { OnOk result (HasNoted self.old.notes (run_lines (open_of self.old) ++ line.now ∷ []) self.new.notes) }
        ensures heard { OnOk result (W.grew out.old (run_lines (open_of self.old) ++ line.now ∷ []) out.new) }
        ensures stop { IfErr result (λ f. StopsSome W.grew (W.stopped f) (run_lines (open_of self.old) ++ line.now ∷ []) out.old out.new) }
        ensures same { W.same out.old out.new }
        ensures cause { HasAirCause (W.faults out.old) (W.faults out.new) result }
    {
        self.end(out)?;
        note_and_put(line, &mut self.notes, out)
    }

    /// Hears a cell with this word: it goes on with the run, or ends that and begins another.
    pub(crate) fn cell<W: LineSink>(
        &mut self,
        c: &AirCell,
        word: CellWord,
        out: &mut W,
    ) -> Result<(), AirFault>
        ensures run { OnOk result (open_of self.new ≡ Some (run_with (open_of self.old) c.now word)) }
        ensures noted { OnOk result (HasNoted self.old.notes (closing (open_of self.old) c.now word) self.new.notes) }
        ensures heard { OnOk result (W.grew out.old (closing (open_of self.old) c.now word) out.new) }
        ensures stop { IfErr result (λ f. StopsSome W.grew (W.stopped f) (closing (open_of self.old) c.now word) out.old out.new) }
        ensures same { W.same out.old out.new }
        ensures cause { HasAirCause (W.faults out.old) (W.faults out.new) result }
    {
        if let Some(run) = &self.run {
            if run.goes_on_with(c, word) {
                self.run = Some(with_next(run, c));
                return Ok(());
            }
        }
        self.end(out)?;
        self.run = Some(OpenRun::of(c, word));
        Ok(())
    }
}
