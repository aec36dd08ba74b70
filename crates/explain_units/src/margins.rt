// The lines of the margins of a unit.
ghost use Rattle.std.specs.Prelude.{◌≡◌, OnOk, IfErr};
ghost use Rattle.air_source.specs.Causes.{HasAirCause};
ghost use Rattle.explain_units.specs.MarginLines.{class_said, margin_at, margin_said, margins_said};
ghost use Rattle.explain_heard.specs.Stops.{StopsInLine};

use crate::kept_margins::{EndpointMargins, is_of_some};
use air_source::{AirFault, Side};
use explain_heard::LineSink;
use explain_model::{ExplainLine, Margin, MarginClass};

// The margin of a class.
fn margin_at(class: MarginClass, margins: &EndpointMargins) -> Margin
    ensures { result ≡ margin_at class margins.now }
{
    match class {
        MarginClass::Down => margins.down,
        MarginClass::Up => margins.up,
        MarginClass::Data => margins.data,
    }
}

// Tells the line of an endpoint's margin of a class, where it is of a section.
fn tell_margin<W: LineSink>(
    side: Side,
    class: MarginClass,
    margins: &EndpointMargins,
    out: &mut W,
) -> Result<(), AirFault>
    ensures told { OnOk result (W.grew out.old (margin_said side class margins.now) out.new) }
    ensures stop { IfErr result (λ f. StopsInLine W.grew (W.stopped f) (margin_said side class margins.now) out.old out.new) }
    ensures same { W.same out.old out.new }
    ensures cause { HasAirCause (W.faults out.old) (W.faults out.new) result }
{
    let margin = margin_at(class, margins);
    if is_of_some(&margin) {
        out.put(&ExplainLine::Margin {
            side,
            class,
            id: margins.id,
            margin,
        })
    } else {
        Ok(())
    }
}

// Tells the lines of the endpoints' margins of a class.
fn tell_class<W: LineSink>(
    side: Side,
    class: MarginClass,
    all: &[EndpointMargins],
    out: &mut W,
) -> Result<(), AirFault>
    ensures told { OnOk result (W.grew out.old (class_said side class all.now) out.new) }
    ensures stop { IfErr result (λ f. StopsInLine W.grew (W.stopped f) (class_said side class all.now) out.old out.new) }
    ensures same { W.same out.old out.new }
    ensures cause { HasAirCause (W.faults out.old) (W.faults out.new) result }
{
    for margins in all {
        tell_margin(side, class, margins, out)?;
    }
    Ok(())
}

/// Tells the lines of the endpoints' margins, by class.
pub(crate) fn tell_all<W: LineSink>(
    side: Side,
    all: &[EndpointMargins],
    out: &mut W,
) -> Result<(), AirFault>
    ensures told { OnOk result (W.grew out.old (margins_said side all.now) out.new) }
    ensures stop { IfErr result (λ f. StopsInLine W.grew (W.stopped f) (margins_said side all.now) out.old out.new) }
    ensures same { W.same out.old out.new }
    ensures cause { HasAirCause (W.faults out.old) (W.faults out.new) result }
{
    tell_class(side, MarginClass::Down, all, out)?;
    tell_class(side, MarginClass::Up, all, out)?;
    tell_class(side, MarginClass::Data, all, out)
}
