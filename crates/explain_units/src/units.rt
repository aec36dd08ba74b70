// The lines of the frames of a unit.
ghost use Rattle.std.specs.Prelude.{◌≡◌, ℕ, List, [], ◌∷◌, ◌++◌, IfOk, OnOk, IfErr};
ghost use Rattle.std.specs.List.{AllByRecursion};
ghost use Rattle.air_source.specs.Causes.{HasAirCause};
ghost use Rattle.air_source.specs.declared.events.Event.{Event};
ghost use Rattle.air_source.specs.declared.events.Event.TheVariants.{Arrival as Arrives};
ghost use Rattle.air_source.specs.declared.events.Side.{Side as SpecSide};
ghost use Rattle.explain_model.specs.Cells.{giver_in};
ghost use Rattle.explain_model.specs.Margins.{dated, margins_at};
ghost use Rattle.explain_model.specs.Stories.{stories};
ghost use Rattle.explain_heard.specs.Stops.{StopsInLine};
ghost use Rattle.explain_units.specs.Frames.{IsFrame};
ghost use Rattle.window_config.specs.declared.config.Config.{Config as SpecConfig};

use crate::earlier::Earlier;
use crate::frames::FrameHeard;
use crate::margins::tell_all;
use crate::telling::tell_frame;
use air_source::{AirCell, AirFault, Side};
use explain_heard::{Judged, LineSink};
use fh_base::NoMemory;
use std::alloc::Global;
use window_config::Config;

/// What is kept of a unit for the lines of its frames: of all frames what lines say of earlier ones. After an error it says nothing.
#[derive(Drop)]
pub struct UnitLines {
    side: Side,
    earlier: Earlier,
}

impl UnitLines {
    ghost use Rattle.explain_units.specs.Fit.{IsFit};
    ghost use Rattle.explain_heard.specs.Stops.{StopsSome};
    ghost use Rattle.explain_units.specs.Units.{IsUnitAfter, frame_lines};

    /// Nothing was received.
    ///
    /// # Errors
    ///
    /// [`NoMemory`] where memory runs out.
    pub fn make(alloc: Global, side: Side, config: &Config) -> Result<UnitLines, NoMemory>
        ensures { IfOk result (λ u. IsUnitAfter side config.now [] u) }
    {
        let earlier = Earlier::make(alloc, config)?;
        Ok(UnitLines { side, earlier })
    }

    /// Tells the lines of a frame of the unit by what the unit judged of it: its own, and those of each thing that was judged, in their
    /// order.
    ///
    /// # Errors
    ///
    /// [`AirFault::NoMemory`] where memory runs out; what the sink answers else. The sink took the first of the lines.
    pub fn hear<W: LineSink>(
        &mut self,
        frame: &FrameHeard,
        judged: &[Judged],
        out: &mut W,
    ) -> Result<(), AirFault>
        requires { AllByRecursion IsFit judged.now }
        ensures after { OnOk result ((c : SpecConfig) (events : List Event) (bytes : List ℕ) → IsUnitAfter frame.now.side c events self.old
            → IsFrame c events bytes frame.now judged.now → IsUnitAfter frame.now.side c (events ++ Arrives frame.now.side frame.now.at bytes ∷ []) self.new) }
        ensures heard { OnOk result ((c : SpecConfig) (events : List Event) (bytes : List ℕ) → IsUnitAfter frame.now.side c events self.old
            → IsFrame c events bytes frame.now judged.now → W.grew out.old (frame_lines frame.now.side c events frame.now.number frame.now.at.0 bytes) out.new) }
        ensures stop { IfErr result (λ f. (c : SpecConfig) (events : List Event) (bytes : List ℕ) → IsUnitAfter frame.now.side c events self.old
            → IsFrame c events bytes frame.now judged.now → StopsSome W.grew (W.stopped f) (frame_lines frame.now.side c events frame.now.number frame.now.at.0 bytes) out.old out.new) }
        ensures same { W.same out.old out.new }
        ensures cause { HasAirCause (W.faults out.old) (W.faults out.new) result }
    {
        tell_frame(&mut self.earlier, frame, judged, out)
    }

    /// The number of the first arrival that gave a block to a cell of the unit, 0 where none did.
    pub fn giver(&self, cell: &AirCell) -> u32
        ensures { (side : SpecSide) (c : SpecConfig) (events : List Event) → IsUnitAfter side c events self.now → cell.now.side ≡ side
            → result ≡ giver_in (stories c events) cell.now }
    {
        self.earlier.giver(cell)
    }

    /// Tells the lines of the unit's margins.
    ///
    /// # Errors
    ///
    /// What the sink answers.
    pub fn tell_margins<W: LineSink>(&self, out: &mut W) -> Result<(), AirFault>
        ensures heard { OnOk result ((side : SpecSide) (c : SpecConfig) (events : List Event) → IsUnitAfter side c events self.now
            → W.grew out.old (margins_at side c.endpoints (dated side c events)) out.new) }
        ensures stop { IfErr result (λ f. (side : SpecSide) (c : SpecConfig) (events : List Event) → IsUnitAfter side c events self.now
            → StopsInLine W.grew (W.stopped f) (margins_at side c.endpoints (dated side c events)) out.old out.new) }
        ensures same { W.same out.old out.new }
        ensures cause { HasAirCause (W.faults out.old) (W.faults out.new) result }
    {
        tell_all(self.side, self.earlier.margins(), out)
    }
}
