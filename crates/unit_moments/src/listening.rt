// What hears the events of a replay, and what its units judge.
ghost use Rattle.std.specs.Prelude.{◌≡◌, ◌<◌, ◌^◌, ℕ, ℤ, List, [], ◌∷◌, ◌++◌, OnOk, OnErr, IfOk, IfErr, length};
ghost use Rattle.air_source.specs.Causes.{HasAirCause};
ghost use Rattle.air_source.specs.declared.airs.AirFault.{AirFault};
ghost use Rattle.air_source.specs.declared.events.Event.{Event};
ghost use Rattle.air_source.specs.declared.events.Event.TheVariants.{Cell, Delay, Arrival, Count};
ghost use Rattle.unit_memory.specs.Control.{has_delay};
ghost use Rattle.unit_model.specs.Heard.{arrivals_heard};
ghost use Rattle.unit_model.specs.Standing.{History, arrived, at_clock};
ghost use Rattle.unit_model.specs.declared.allocations.Allocation.{Allocation};
ghost use Rattle.window_config.specs.declared.config.Config.{Config};

use air_source::{Air, AirCell, AirFault, Side};
use fault_counters::Counter;
use fh_base::Ticks;
use unit_memory::TakesFrames;

/// What hears the events of a replay, one at a call, and of each frame what its unit judges of it: it hands the frame to the unit itself.
///
/// At `Ok` it heard the event; after an error it stopped in it, and the unit has not taken the frame. The count of faults rises exactly
/// at `Failed`. Code over any of them knows what it heard by these ghost members and their laws alone. Each [`Air`] is one, that
/// lets the units judge untold.
pub trait ListeningAir {
    /// How often it failed, a number that does not fall and may stay at the greatest `u64`.
    ghost faults: { Self → ℕ };

    /// Where these events of units of this configuration were heard earlier: from the first air to the second, it heard those, in order.
    ghost grew: { Config → List Event → Self → List Event → Self → Type 0 };

    /// From the first air to the second, it stopped in this event.
    ghost stopped: { AirFault → Self → Event → Self → Type 0 };

    /// The second air holds the same references as the first, so who lent them knows what became of
    /// what they refer to.
    ghost same: { Self → Self → Type 0 };

    /// Hears a cell that a unit reports.
    fn cell(&mut self, c: &AirCell) -> Result<(), AirFault>
        ensures heard { OnOk result ((k : Config) (earlier : List Event) → grew k earlier self.old (Cell c.now ∷ []) self.new) }
        ensures stop { IfErr result (λ f. stopped f self.old (Cell c.now) self.new) }
        ensures same { same self.old self.new }
        ensures cause { HasAirCause (faults self.old) (faults self.new) result };

    /// Hears a measured delay, in units of 2^-16 ns, with the arrival that gave it, the unit that
    /// measured it and the measurement id.
    fn delay(&mut self, at: Ticks, side: Side, id: u8, value: i128) -> Result<(), AirFault>
        ensures heard { OnOk result ((k : Config) (earlier : List Event) → grew k earlier self.old (Delay at side id value ∷ []) self.new) }
        ensures stop { IfErr result (λ f. stopped f self.old (Delay at side id value) self.new) }
        ensures same { same self.old self.new }
        ensures cause { HasAirCause (faults self.old) (faults self.new) result };

    /// Hears a frame of fewer than 2^32 bytes that arrives at a unit, and hands it to the unit. Tells whether one of its whole messages
    /// is of one-way delay measurement.
    fn arrival<U: TakesFrames>(
        &mut self,
        side: Side,
        at: Ticks,
        frame: &[u8],
        unit: &mut U,
    ) -> Result<bool, AirFault>
        requires short { length frame.now < 2 ^ 32 }
        requires side { side ≡ U.side }
        requires unit { (k : Config) × (planned : List Allocation) × (h : History) × U.may_take unit.old k planned at.0 h }
        ensures heard { OnOk result ((k : Config) (planned : List Allocation) (h : History) (earlier : List Event) → U.may_take unit.old k planned at.0 h
            → h.arrivals ≡ arrivals_heard side [] earlier → grew k earlier self.old (Arrival side at frame.now ∷ []) self.new) }
        ensures took { OnOk result ((k : Config) (planned : List Allocation) (h : History) → U.may_take unit.old k planned at.0 h
            → U.may_take unit.new k planned at.0 (arrived (at_clock h at.0) frame.now)) }
        ensures rests { OnErr result (unit.new ≡ unit.old) }
        ensures delay { IfOk result (λ delay. delay ≡ has_delay frame.now) }
        ensures stop { IfErr result (λ f. stopped f self.old (Arrival side at frame.now) self.new) }
        ensures same { same self.old self.new }
        ensures cause { HasAirCause (faults self.old) (faults self.new) result };

    /// Hears the value of a unit's counter.
    fn count(&mut self, side: Side, counter: Counter, value: u64) -> Result<(), AirFault>
        ensures heard { OnOk result ((k : Config) (earlier : List Event) → grew k earlier self.old (Count side counter value ∷ []) self.new) }
        ensures stop { IfErr result (λ f. stopped f self.old (Count side counter value) self.new) }
        ensures same { same self.old self.new }
        ensures cause { HasAirCause (faults self.old) (faults self.new) result };

    /// An unchanged air heard nothing.
    ghost grew_none: { (k : Config) (earlier : List Event) (a : Self) → grew k earlier a [] a };

    /// Hearing one list and then another is hearing both in turn.
    ghost grew_more: { (k : Config) (earlier : List Event) (a b c : Self) (first second : List Event) → grew k earlier a first b → grew k (earlier ++ first) b second c
        → grew k earlier a (first ++ second) c };

    /// An unchanged air holds the same references.
    ghost same_none: { (a : Self) → same a a };

    /// The same references, and then the same again, are the same.
    ghost same_more: { (a b c : Self) → same a b → same b c → same a c };
}

impl<A: Air> ListeningAir for A {
    ghost faults = { λ a. A.Air.faults a };

    ghost grew = { λ k earlier a events b. A.Air.grew a events b };

    ghost stopped = { λ f a event b. A.Air.stopped f a event b };

    ghost same = { λ a b. A.Air.same a b };

    ghost grew_none = { λ k earlier a. A.Air.grew_none a };

    ghost grew_more = { λ k earlier a b c first second one two. A.Air.grew_more a b c first second one two };

    ghost same_none = { λ a. A.Air.same_none a };

    ghost same_more = { λ a b c one two. A.Air.same_more a b c one two };

    fn cell(&mut self, c: &AirCell) -> Result<(), AirFault> {
        Air::cell(self, c)
    }

    fn delay(&mut self, at: Ticks, side: Side, id: u8, value: i128) -> Result<(), AirFault> {
        Air::delay(self, at, side, id, value)
    }

    fn arrival<U: TakesFrames>(
        &mut self,
        side: Side,
        at: Ticks,
        frame: &[u8],
        unit: &mut U,
    ) -> Result<bool, AirFault> {
        Air::arrival(self, side, at, frame)?;
        Ok(unit.take(at, frame))
    }

    fn count(&mut self, side: Side, counter: Counter, value: u64) -> Result<(), AirFault> {
        Air::count(self, side, counter, value)
    }
}
