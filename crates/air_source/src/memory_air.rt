// An air in memory that fails at the calls that it is told.
ghost use Rattle.std.specs.Prelude.{◌≡◌, ◌∷◌, ◌++◌, [], ◌<◌, ◌^◌, ◌==◌, length, OnOk, IfErr};
ghost use Rattle.std.specs.List.{list_any};
ghost use Rattle.fh_base.specs.Ends.{fails_at};
ghost use Rattle.air_source.specs.Causes.{HasAirCause, faults_after};
ghost use Rattle.air_source.specs.Memory.{heard_of, fails_of, calls_of, faults_of, Begins, Keeps, Calls};
ghost use Rattle.air_source.specs.Grown.{grown_none, grown_more};
ghost use Rattle.air_source.specs.declared.events.Event.TheVariants.{Cell, Delay, Arrival, Count};

use crate::{Air, AirCell, AirFault, Event, Side};
use fault_counters::Counter;
use fh_base::{Bytes, List, Ticks};
use std::alloc::Global;

/// An air that keeps its events, and fails at the calls that it is told.
#[derive(Drop)]
pub struct MemoryAir {
    alloc: Global,
    heard: List<Event>,
    fails: List<u64>,
    calls: u64,
    faults: u64,
}

impl MemoryAir {
    /// An air that heard nothing, and fails at the calls that `fails` lists. This takes no memory.
    ///
    /// Calls of all four kinds are counted from 1 together. The count stays at the greatest `u64`,
    /// and no call with that number fails.
    pub fn new(alloc: Global, fails: List<u64>) -> Self
        ensures heard { heard_of result ≡ [] }
        ensures fails { fails_of result ≡ fails }
        ensures calls { calls_of result ≡ 0 }
        ensures faults { ⟦<MemoryAir as Air>⟧.faults result ≡ 0 }
    {
        MemoryAir {
            alloc,
            heard: List::new(alloc),
            fails,
            calls: 0,
            faults: 0,
        }
    }

    /// The events that it heard, in order.
    pub fn heard(&self) -> &List<Event>
        ensures { result.now ≡ heard_of self.now }
    {
        &self.heard
    }

    // Counts the call, and fails where it is to fail.
    fn begin(&mut self) -> Result<(), AirFault>
        ensures { Begins self.old self.new result }
    {
        self.calls = self.calls.saturating_add(1);
        if is_listed(&self.fails, self.calls) {
            self.faults = self.faults.saturating_add(1);
            return Err(AirFault::Failed);
        }
        Ok(())
    }

    // Keeps an event.
    fn keep(&mut self, event: Event) -> Result<(), AirFault>
        ensures { Keeps self.old event self.new result }
    {
        self.heard.push(event)?;
        Ok(())
    }
}

// The call with this number is to fail.
fn is_listed(fails: &List<u64>, call: u64) -> bool
    ensures { result ≡ fails_at fails.now call }
{
    call < u64::MAX && has(fails, call)
}

// The list has this number.
fn has(numbers: &List<u64>, number: u64) -> bool
    ensures { result ≡ list_any (λ y. y == number) numbers.now }
{
    for k in 0..numbers.len() {
        if numbers.get(k).copied() == Some(number) {
            return true;
        }
    }
    false
}

impl Air for MemoryAir {
    ghost faults = { λ a. a.faults };

    ghost grew = { λ a events b. heard_of b ≡ heard_of a ++ events };

    ghost stopped = { λ f a _ b. (heard_of b ≡ heard_of a) × (faults_of b ≡ faults_after f (faults_of a)) };

    ghost same = { λ _ _. Unit {0} };

    ghost grew_none = { λ a. grown_none (heard_of a) };

    ghost grew_more = { λ a b c first second. grown_more (heard_of a) (heard_of b) (heard_of c) first second };

    ghost same_none = { λ _. tt };

    ghost same_more = { λ _ _ _ _ _. tt };

    /// Keeps the cell, unless memory is refused. `Failed` is given exactly at the listed calls.
    fn cell(&mut self, c: &AirCell) -> Result<(), AirFault>
        ensures heard { OnOk result (⟦<MemoryAir as Air>⟧.grew self.old (Cell c.now ∷ []) self.new) }
        ensures stop { IfErr result (λ f. ⟦<MemoryAir as Air>⟧.stopped f self.old (Cell c.now) self.new) }
        ensures same { ⟦<MemoryAir as Air>⟧.same self.old self.new }
        ensures cause { HasAirCause (⟦<MemoryAir as Air>⟧.faults self.old) (⟦<MemoryAir as Air>⟧.faults self.new) result }
        ensures call { Calls self.old self.new result }
    {
        self.begin()?;
        self.keep(Event::Cell(*c))
    }

    /// Keeps the delay, unless memory is refused. `Failed` is given exactly at the listed calls.
    fn delay(&mut self, at: Ticks, side: Side, id: u8, value: i128) -> Result<(), AirFault>
        ensures heard { OnOk result (⟦<MemoryAir as Air>⟧.grew self.old (Delay at side id value ∷ []) self.new) }
        ensures stop { IfErr result (λ f. ⟦<MemoryAir as Air>⟧.stopped f self.old (Delay at side id value) self.new) }
        ensures same { ⟦<MemoryAir as Air>⟧.same self.old self.new }
        ensures cause { HasAirCause (⟦<MemoryAir as Air>⟧.faults self.old) (⟦<MemoryAir as Air>⟧.faults self.new) result }
        ensures call { Calls self.old self.new result }
    {
        self.begin()?;
        self.keep(Event::Delay {
            at,
            side,
            id,
            value,
        })
    }

    /// Keeps the frame, unless memory is refused. `Failed` is given exactly at the listed calls.
    fn arrival(&mut self, side: Side, at: Ticks, frame: &[u8]) -> Result<(), AirFault>
        requires { length frame.now < 2 ^ 32 }
        ensures heard { OnOk result (⟦<MemoryAir as Air>⟧.grew self.old (Arrival side at frame.now ∷ []) self.new) }
        ensures stop { IfErr result (λ f. ⟦<MemoryAir as Air>⟧.stopped f self.old (Arrival side at frame.now) self.new) }
        ensures same { ⟦<MemoryAir as Air>⟧.same self.old self.new }
        ensures cause { HasAirCause (⟦<MemoryAir as Air>⟧.faults self.old) (⟦<MemoryAir as Air>⟧.faults self.new) result }
        ensures call { Calls self.old self.new result }
    {
        self.begin()?;
        let mut kept = Bytes::new(self.alloc);
        kept.push_all(frame)?;
        self.keep(Event::Arrival {
            side,
            at,
            frame: kept,
        })
    }

    /// Keeps the count, unless memory is refused. `Failed` is given exactly at the listed calls.
    fn count(&mut self, side: Side, counter: Counter, value: u64) -> Result<(), AirFault>
        ensures heard { OnOk result (⟦<MemoryAir as Air>⟧.grew self.old (Count side counter value ∷ []) self.new) }
        ensures stop { IfErr result (λ f. ⟦<MemoryAir as Air>⟧.stopped f self.old (Count side counter value) self.new) }
        ensures same { ⟦<MemoryAir as Air>⟧.same self.old self.new }
        ensures cause { HasAirCause (⟦<MemoryAir as Air>⟧.faults self.old) (⟦<MemoryAir as Air>⟧.faults self.new) result }
        ensures call { Calls self.old self.new result }
    {
        self.begin()?;
        self.keep(Event::Count {
            side,
            counter,
            value,
        })
    }
}
