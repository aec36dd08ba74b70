// What hears events.
ghost use Rattle.std.specs.Prelude.{◌≡◌, List, [], ◌∷◌, ◌++◌, ℕ, ◌<◌, ◌^◌, OnOk, IfErr, length};
ghost use Rattle.air_source.specs.Causes.{HasAirCause};
ghost use Rattle.air_source.specs.declared.airs.AirFault.{AirFault};
ghost use Rattle.air_source.specs.declared.airs.AirFault.TheVariants.{NoMemory as WantsMemory};
ghost use Rattle.air_source.specs.declared.events.Event.{Event};
ghost use Rattle.air_source.specs.declared.events.Event.TheVariants.{Cell, Delay, Arrival, Count};

use crate::{AirCell, Side};
use fault_counters::Counter;
use fh_base::{NoMemory, Ticks};
use thiserror::Error;

/// Why an air did not hear an event.
#[derive(Clone, Copy, Debug, PartialEq, Eq, Error)]
pub enum AirFault {
    /// The air failed: its count of faults rose.
    #[error("failed")]
    Failed,
    /// Memory was refused.
    #[error("no memory")]
    NoMemory,
}

impl From<NoMemory> for AirFault {
    ghost from_gives = { λ _ fault. fault ≡ WantsMemory };

    fn from(_wants: NoMemory) -> Self {
        AirFault::NoMemory
    }
}

/// What hears events, one at a call.
///
/// At `Ok` the air heard the event; after an error it stopped in it. The count of faults rises
/// exactly at `Failed`. Code over any air knows what it heard by these ghost members and their laws
/// alone.
pub trait Air {
    /// How often the air failed, a number that does not fall and may stay at the greatest `u64`.
    ghost faults: { Self → ℕ };

    /// From the first air to the second, it heard these events, in order.
    ghost grew: { Self → List Event → Self → Type 0 };

    /// From the first air to the second, it stopped in this event.
    ghost stopped: { AirFault → Self → Event → Self → Type 0 };

    /// The second air holds the same references as the first, so who lent them knows what became of
    /// what they refer to.
    ghost same: { Self → Self → Type 0 };

    /// Hears a cell that a unit reports.
    fn cell(&mut self, c: &AirCell) -> Result<(), AirFault>
        ensures heard { OnOk result (grew self.old (Cell c.now ∷ []) self.new) }
        ensures stop { IfErr result (λ f. stopped f self.old (Cell c.now) self.new) }
        ensures same { same self.old self.new }
        ensures cause { HasAirCause (faults self.old) (faults self.new) result };

    /// Hears a measured delay, in units of 2^-16 ns, with the arrival that gave it, the unit that
    /// measured it and the measurement id.
    fn delay(&mut self, at: Ticks, side: Side, id: u8, value: i128) -> Result<(), AirFault>
        ensures heard { OnOk result (grew self.old (Delay at side id value ∷ []) self.new) }
        ensures stop { IfErr result (λ f. stopped f self.old (Delay at side id value) self.new) }
        ensures same { same self.old self.new }
        ensures cause { HasAirCause (faults self.old) (faults self.new) result };

    /// Hears a frame of fewer than 2^32 bytes that arrived at a unit.
    fn arrival(&mut self, side: Side, at: Ticks, frame: &[u8]) -> Result<(), AirFault>
        requires { length frame.now < 2 ^ 32 }
        ensures heard { OnOk result (grew self.old (Arrival side at frame.now ∷ []) self.new) }
        ensures stop { IfErr result (λ f. stopped f self.old (Arrival side at frame.now) self.new) }
        ensures same { same self.old self.new }
        ensures cause { HasAirCause (faults self.old) (faults self.new) result };

    /// Hears the value of a unit's counter.
    fn count(&mut self, side: Side, counter: Counter, value: u64) -> Result<(), AirFault>
        ensures heard { OnOk result (grew self.old (Count side counter value ∷ []) self.new) }
        ensures stop { IfErr result (λ f. stopped f self.old (Count side counter value) self.new) }
        ensures same { same self.old self.new }
        ensures cause { HasAirCause (faults self.old) (faults self.new) result };

    /// An unchanged air heard nothing.
    ghost grew_none: { (a : Self) → grew a [] a };

    /// Hearing one list and then another is hearing both in turn.
    ghost grew_more: { (a b c : Self) (first second : List Event) → grew a first b → grew b second c → grew a (first ++ second) c };

    /// An unchanged air holds the same references.
    ghost same_none: { (a : Self) → same a a };

    /// The same references, and then the same again, are the same.
    ghost same_more: { (a b c : Self) → same a b → same b c → same a c };
}
