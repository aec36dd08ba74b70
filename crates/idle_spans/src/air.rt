// Spans as what hears events.
ghost use Rattle.std.specs.Prelude.{◌≡◌, [], ◌∷◌, ◌<◌, ◌^◌, length, IsOk, OnOk, IfErr};
ghost use Rattle.air_source.specs.Causes.{HasAirCause};
ghost use Rattle.air_source.specs.declared.events.Event.TheVariants.{Cell, Delay, Arrival, Count};
ghost use Rattle.idle_spans.specs.Tables.{Marks, cells_of};
ghost use Rattle.idle_spans.specs.Laws.{heard_none, heard_more};

use crate::spans::Spans;
use air_source::{Air, AirCell, AirFault, Side};
use fault_counters::Counter;
use fh_base::Ticks;

impl Air for Spans {
    ghost faults = { λ _. 0 };

    ghost grew = { λ a events b. Marks a b (cells_of events) };

    ghost stopped = { λ _ _ _ _. ⊥ };

    ghost same = { λ _ _. Unit {0} };

    ghost grew_none = { λ a. heard_none a };

    ghost grew_more = { λ a b c first second. heard_more a b c first second };

    ghost same_none = { λ _. tt };

    ghost same_more = { λ _ _ _ _ _. tt };

    /// Marks the cell, as [`Spans::mark`].
    fn cell(&mut self, c: &AirCell) -> Result<(), AirFault>
        ensures heard { OnOk result (⟦<Spans as Air>⟧.grew self.old (Cell c.now ∷ []) self.new) }
        ensures stop { IfErr result (λ f. ⟦<Spans as Air>⟧.stopped f self.old (Cell c.now) self.new) }
        ensures same { ⟦<Spans as Air>⟧.same self.old self.new }
        ensures cause { HasAirCause (⟦<Spans as Air>⟧.faults self.old) (⟦<Spans as Air>⟧.faults self.new) result }
        ensures ok { IsOk result }
        ensures marks { Marks self.old self.new (c.now ∷ []) }
    {
        self.mark(c);
        Ok(())
    }

    /// Changes nothing.
    fn delay(&mut self, at: Ticks, side: Side, id: u8, value: i128) -> Result<(), AirFault>
        ensures heard { OnOk result (⟦<Spans as Air>⟧.grew self.old (Delay at side id value ∷ []) self.new) }
        ensures stop { IfErr result (λ f. ⟦<Spans as Air>⟧.stopped f self.old (Delay at side id value) self.new) }
        ensures same { ⟦<Spans as Air>⟧.same self.old self.new }
        ensures cause { HasAirCause (⟦<Spans as Air>⟧.faults self.old) (⟦<Spans as Air>⟧.faults self.new) result }
        ensures ok { IsOk result }
        ensures unchanged { self.new ≡ self.old }
    {
        Ok(())
    }

    /// Changes nothing.
    fn arrival(&mut self, side: Side, at: Ticks, frame: &[u8]) -> Result<(), AirFault>
        requires { length frame.now < 2 ^ 32 }
        ensures heard { OnOk result (⟦<Spans as Air>⟧.grew self.old (Arrival side at frame.now ∷ []) self.new) }
        ensures stop { IfErr result (λ f. ⟦<Spans as Air>⟧.stopped f self.old (Arrival side at frame.now) self.new) }
        ensures same { ⟦<Spans as Air>⟧.same self.old self.new }
        ensures cause { HasAirCause (⟦<Spans as Air>⟧.faults self.old) (⟦<Spans as Air>⟧.faults self.new) result }
        ensures ok { IsOk result }
        ensures unchanged { self.new ≡ self.old }
    {
        Ok(())
    }

    /// Changes nothing.
    fn count(&mut self, side: Side, counter: Counter, value: u64) -> Result<(), AirFault>
        ensures heard { OnOk result (⟦<Spans as Air>⟧.grew self.old (Count side counter value ∷ []) self.new) }
        ensures stop { IfErr result (λ f. ⟦<Spans as Air>⟧.stopped f self.old (Count side counter value) self.new) }
        ensures same { ⟦<Spans as Air>⟧.same self.old self.new }
        ensures cause { HasAirCause (⟦<Spans as Air>⟧.faults self.old) (⟦<Spans as Air>⟧.faults self.new) result }
        ensures ok { IsOk result }
        ensures unchanged { self.new ≡ self.old }
    {
        Ok(())
    }
}
