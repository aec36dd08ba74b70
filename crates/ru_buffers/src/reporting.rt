// The unit's cells, as time passes.
ghost use Rattle.std.specs.Prelude.{◌≡◌, ◌≤ℤ◌, ◌<ℤ◌, true, false, OnErr, OnOk, map};
ghost use Rattle.air_source.specs.Causes.{HasAirCause};
ghost use Rattle.air_source.specs.declared.events.Event.TheVariants.{Cell as Reported};
ghost use Rattle.window_config.specs.declared.config.Config.{Config};
ghost use Rattle.unit_model.specs.Proper.{IsTime};
ghost use Rattle.unit_model.specs.Standing.{History, at_clock, heard};

use crate::finding::find_symbol;
use crate::unit::Ru;
use air_source::{Air, AirFault};
use fh_base::Ticks;
use unit_model::SymbolStart;
use unit_symbols::report;

/// Whether a symbol starts by a time.
pub(crate) fn starts_by(m: &SymbolStart, to: Ticks) -> bool
    ensures by { result ≡ true → m.now.start.0 ≤ℤ to.0 }
    ensures after { result ≡ false → to.0 <ℤ m.now.start.0 }
{
    m.start.0 <= to.0
}

impl Ru {
    ghost use Rattle.ru_buffers.specs.Calls.{HasGivenPast, IsNextSymbol, StandsFor, StandsForSome, StopsAtDue, radio_clock};
    ghost use Rattle.unit_model.specs.Standing.{owed_until};
    ghost use Rattle.ru_buffers.specs.Advancing.{AfterReport, InOrder, ToldAll};
    ghost use Rattle.unit_cells.specs.Cells.{endpoints_of};
    ghost use Rattle.unit_cells.specs.Keeping.{SameKnown};
    ghost use Rattle.std.specs.Prelude.{IfErr, IfOk, ◌-ℤ◌, ◌^◌, ◌≤◌, pos, neg_ℤ, [], length};
    ghost use Rattle.ru_buffers.specs.Reporting.{due_of};

    /// Reports the first symbol of which something is left, where it starts by a time.
    fn report_next<A: Air>(
        &mut self,
        to: Ticks,
        air: &mut A,
    ) -> Result<Option<SymbolStart>, AirFault>
        requires next { IsNextSymbol self.old.memory.cells self.old.clock.0 self.old.symbol }
        ensures told { (c : Config) (h : History) → StandsFor c self.old h
            → IfOk result (AfterReport A.grew c h to.0 self.old self.new air.old air.new) }
        ensures order { IfOk result (InOrder self.old.clock.0 to.0 self.old.memory.cells self.new.memory.cells) }
        ensures stop { (c : Config) (h : History) → StandsFor c self.old h → IfErr result (λ f. StopsAtDue A.grew (A.stopped f) c h to.0 self.new air.old air.new) }
        ensures clock { self.new.clock ≡ self.old.clock }
        ensures cursor { self.new.cursor ≡ self.old.cursor }
        ensures next { IsNextSymbol self.new.memory.cells self.new.clock.0 self.new.symbol }
        ensures known { SameKnown self.old.memory.cells self.new.memory.cells }
        ensures endpoints { endpoints_of self.new.memory.cells ≡ endpoints_of self.old.memory.cells }
        ensures same { A.same air.old air.new }
        ensures cause { HasAirCause (A.faults air.old) (A.faults air.new) result }
    {
        let first = match self.symbol {
            Some(first) => first,
            None => return Ok(None),
        };
        if !starts_by(&first, to) {
            return Ok(None);
        }
        let told = report(
            &mut self.memory.cells,
            &mut self.memory.counters,
            &first,
            air,
        );
        self.symbol = find_symbol(&self.memory.cells, self.clock);
        told?;
        Ok(Some(first))
    }

    /// Reports all symbols of which something is left that start by a time. The last of them, if there is one.
    fn report_until<A: Air>(
        &mut self,
        to: Ticks,
        air: &mut A,
    ) -> Result<Option<SymbolStart>, AirFault>
        requires next { IsNextSymbol self.old.memory.cells self.old.clock.0 self.old.symbol }
        requires few { length (endpoints_of self.old.memory.cells) ≤ 16 }
        requires low { neg_ℤ (pos (2 ^ 57)) ≤ℤ self.old.clock.0 }
        ensures told { (c : Config) (h : History) → StandsFor c self.old h → OnOk result (ToldAll A.grew c h to.0 self.new air.old air.new) }
        ensures stop { (c : Config) (h : History) → StandsFor c self.old h → IfErr result (λ f. StopsAtDue A.grew (A.stopped f) c h to.0 self.new air.old air.new) }
        ensures clock { self.new.clock ≡ self.old.clock }
        ensures cursor { self.new.cursor ≡ self.old.cursor }
        ensures next { IsNextSymbol self.new.memory.cells self.new.clock.0 self.new.symbol }
        ensures known { SameKnown self.old.memory.cells self.new.memory.cells }
        ensures endpoints { endpoints_of self.new.memory.cells ≡ endpoints_of self.old.memory.cells }
        ensures same { A.same air.old air.new }
        ensures cause { HasAirCause (A.faults air.old) (A.faults air.new) result }
    {
        let mut last = None;
        while let Some(reported) = self.report_next(to, air)? {
            last = Some(reported);
        }
        Ok(last)
    }

    /// Hands the air every cell due from the clock to `to`, that time included, which was not reported, in order; then the clock is
    /// `to`. After an error the clock stays, and the next cell to be reported is the one in which the air stopped. No memory is asked
    /// for beside the air's.
    ///
    /// # Errors
    ///
    /// The air's: the fault with which it stopped.
    pub fn advance<A: Air>(&mut self, to: Ticks, air: &mut A) -> Result<(), AirFault>
        requires unit { StandsForSome self.old }
        requires given { HasGivenPast self.old }
        requires order { (radio_clock self.old).0 ≤ℤ to.0 }
        requires time { IsTime to.0 }
        ensures heard { (c : Config) (h : History) → StandsFor c self.old h → OnOk result (A.grew air.old (map Reported (due_of c h to.0)) air.new) }
        ensures stands { (c : Config) (h : History) → StandsFor c self.old h → OnOk result (StandsFor c self.new (at_clock (heard h (due_of c h to.0)) to.0)) }
        ensures clock { OnOk result (radio_clock self.new ≡ to) }
        ensures stop { (c : Config) (h : History) → StandsFor c self.old h → IfErr result (λ f. StopsAtDue A.grew (A.stopped f) c h to.0 self.new air.old air.new) }
        ensures past { (c : Config) (h : History) → StandsFor c self.old h → owed_until c h (to.0 -ℤ pos 1) ≡ [] → OnOk result (HasGivenPast self.new) }
        ensures stays { OnErr result (radio_clock self.new ≡ radio_clock self.old) }
        ensures given { OnErr result (HasGivenPast self.new) }
        ensures same { A.same air.old air.new }
        ensures cause { HasAirCause (A.faults air.old) (A.faults air.new) result }
    {
        self.cursor = self.cursor.settled(self.clock);
        self.report_until(to, air)?;
        self.clock = to;
        Ok(())
    }
}
