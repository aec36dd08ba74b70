// The lines of a frame, told to a sink.
ghost use Rattle.std.specs.Prelude.{◌≡◌, [], ◌∷◌, OnOk, IfErr};
ghost use Rattle.std.specs.List.{AllByRecursion};
ghost use Rattle.air_source.specs.Causes.{HasAirCause};
ghost use Rattle.explain_units.specs.Fit.{IsFit};
ghost use Rattle.explain_units.specs.Frames.{line_of};
ghost use Rattle.explain_units.specs.Known.{after_all, all_said, as_lines, said, with_judged};
ghost use Rattle.explain_units.specs.Knowing.{known_of};
ghost use Rattle.explain_heard.specs.Stops.{StopsSome, StopsInLine};

use crate::earlier::Earlier;
use crate::frames::FrameHeard;
use air_source::AirFault;
use explain_heard::{Judged, LineSink};
use explain_model::ExplainLine;

// Tells a line, if there is one.
fn tell_some<W: LineSink>(line: &Option<ExplainLine>, out: &mut W) -> Result<(), AirFault>
    ensures told { OnOk result (W.grew out.old (as_lines line.now) out.new) }
    ensures stop { IfErr result (λ f. StopsInLine W.grew (W.stopped f) (as_lines line.now) out.old out.new) }
    ensures same { W.same out.old out.new }
    ensures cause { HasAirCause (W.faults out.old) (W.faults out.new) result }
{
    match line {
        Some(line) => out.put(line),
        None => Ok(()),
    }
}

// Tells the line of what was judged of a part of the arrival with this number, if it has one, and keeps it.
fn tell_one<W: LineSink>(
    earlier: &mut Earlier,
    number: u32,
    judged: &Judged,
    out: &mut W,
) -> Result<(), AirFault>
    requires { IsFit judged.now }
    ensures known { OnOk result (known_of earlier.new ≡ with_judged number judged.now (known_of earlier.old)) }
    ensures told { OnOk result (W.grew out.old (as_lines (said number (known_of earlier.old) judged.now)) out.new) }
    ensures stop { IfErr result (λ f. StopsSome W.grew (W.stopped f) (as_lines (said number (known_of earlier.old) judged.now)) out.old out.new) }
    ensures same { W.same out.old out.new }
    ensures cause { HasAirCause (W.faults out.old) (W.faults out.new) result }
{
    let line = earlier.line_of(number, judged);
    tell_some(&line, out)?;
    earlier.keep(number, judged)?;
    Ok(())
}

// Tells the lines of what was judged of the arrival with this number, and keeps it.
fn tell_judged<W: LineSink>(
    earlier: &mut Earlier,
    number: u32,
    judged: &[Judged],
    out: &mut W,
) -> Result<(), AirFault>
    requires { AllByRecursion IsFit judged.now }
    ensures known { OnOk result (known_of earlier.new ≡ after_all number judged.now (known_of earlier.old)) }
    ensures told { OnOk result (W.grew out.old (all_said number judged.now (known_of earlier.old)) out.new) }
    ensures stop { IfErr result (λ f. StopsSome W.grew (W.stopped f) (all_said number judged.now (known_of earlier.old)) out.old out.new) }
    ensures same { W.same out.old out.new }
    ensures cause { HasAirCause (W.faults out.old) (W.faults out.new) result }
{
    for part in judged {
        tell_one(earlier, number, part, out)?;
    }
    Ok(())
}

/// Tells the line of a frame and those of what was judged of it, and keeps that.
pub(crate) fn tell_frame<W: LineSink>(
    earlier: &mut Earlier,
    frame: &FrameHeard,
    judged: &[Judged],
    out: &mut W,
) -> Result<(), AirFault>
    requires { AllByRecursion IsFit judged.now }
    ensures known { OnOk result (known_of earlier.new ≡ after_all frame.now.number judged.now (known_of earlier.old)) }
    ensures told { OnOk result (W.grew out.old (line_of frame.now ∷ all_said frame.now.number judged.now (known_of earlier.old)) out.new) }
    ensures stop { IfErr result (λ f. StopsSome W.grew (W.stopped f) (line_of frame.now ∷ all_said frame.now.number judged.now (known_of earlier.old)) out.old out.new) }
    ensures same { W.same out.old out.new }
    ensures cause { HasAirCause (W.faults out.old) (W.faults out.new) result }
{
    out.put(&frame.line())?;
    tell_judged(earlier, frame.number, judged, out)
}
