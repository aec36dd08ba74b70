// What takes the lines of an explanation to a sink.
ghost use Rattle.std.specs.Prelude.{◌≡◌, [], ◌∷◌, ◌++◌};
ghost use Rattle.explain_air.specs.OutLaws.{same_more, same_none, took_more, took_none};
ghost use Rattle.explain_air.specs.Outs.{AreSame, Took, kept_text, owed_of, sink_of};
ghost use Rattle.fh_base.specs.Told.{WritesPart};

use air_source::{AirFault, tell};
use explain_heard::LineSink;
use explain_model::{ExplainLine, is_fault, put_line};
use fh_base::{Line, OwedBytes, Sink};

/// Takes lines to a sink: all, or those of the text of the faults alone. What does not fill a buffer is owed to the sink.
#[derive(Drop)]
pub(crate) struct LineOut<'a, K> {
    pub(crate) sink: &'a mut K,
    pub(crate) owed: &'a mut OwedBytes,
    // the line that is told next, which is written in place
    pub(crate) line: &'a mut Line,
    pub(crate) faults: bool,
}

impl<'a, K: Sink> LineSink for LineOut<'a, K> {
    ghost faults = { λ o. K.faults (sink_of o) };

    ghost grew = { λ a lines b. Took a.faults (K.written (sink_of a)) (owed_of a) lines b.faults (K.written (sink_of b)) (owed_of b) };

    ghost stopped = { λ _ a line b. WritesPart (K.written (sink_of a)) (K.written (sink_of b)) (owed_of a ++ kept_text a.faults (line ∷ [])) };

    ghost same = { λ a b. AreSame a.sink.ghost_name a.owed.ghost_name a.line.ghost_name b.sink.ghost_name b.owed.ghost_name b.line.ghost_name };

    ghost grew_none = { λ a. took_none a.faults (K.written (sink_of a)) (owed_of a) };

    ghost grew_more = { λ a b c first second. took_more a.faults b.faults c.faults (K.written (sink_of a)) (K.written (sink_of b)) (K.written (sink_of c)) (owed_of a) (owed_of b) (owed_of c) first second };

    ghost same_none = { λ a. same_none a.sink.ghost_name a.owed.ghost_name a.line.ghost_name };

    ghost same_more = { λ a b c first second. same_more a.sink.ghost_name a.owed.ghost_name a.line.ghost_name b.sink.ghost_name b.owed.ghost_name b.line.ghost_name c.sink.ghost_name c.owed.ghost_name c.line.ghost_name first second };

    fn put(&mut self, line: &ExplainLine) -> Result<(), AirFault> {
        if self.faults && !is_fault(line) {
            return Ok(());
        }
        put_line(line, self.line);
        tell(self.owed, self.line.as_slice(), self.sink)
    }
}
