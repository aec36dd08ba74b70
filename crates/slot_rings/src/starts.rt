// From which tick on the symbols of the places may have cells to report.
ghost use Rattle.std.specs.Prelude.{◌≡◌, ◌≢◌, ℕ, ℤ, ◌<◌, ◌≤◌, ◌≤ℤ◌, true, false, length, IfOk, IfSome, Some};
ghost use Rattle.fh_base.specs.Air.{air_of};
ghost use Rattle.fh_base.specs.Numbering.{symbols_of};
ghost use Rattle.fh_base.specs.declared.values.Slot.{Slot};
ghost use Rattle.unit_model.specs.Claims.{is_from};
ghost use Rattle.unit_model.specs.Proper.{IsSlot};
ghost use Rattle.slot_rings.specs.Starts.{IsLeast, start_at};

use fh_base::{NoMemory, Numerology, Slot, Ticks, air, shape};
use std::alloc::Global;
use std::marker::Model;
use unit_model::Allocation;

/// No symbol starts so late.
const NEVER: Ticks = Ticks(i64::MAX);

/// The earlier of two ticks.
fn earlier(a: Ticks, b: Ticks) -> Ticks
    ensures first { result.0 ≤ℤ a.0 }
    ensures second { result.0 ≤ℤ b.0 }
    ensures latest { (t : ℤ) → t ≤ℤ a.0 → t ≤ℤ b.0 → t ≤ℤ result.0 }
{
    if a.0 < b.0 { a } else { b }
}

/// The earliest of some ticks.
fn earliest_of(ticks: &[Ticks]) -> Ticks
    ensures { IsLeast ticks.now result.0 }
{
    let mut least = NEVER;
    for k in 0..ticks.len() {
        least = earlier(least, ticks[k]);
    }
    least
}

/// A tick before which no symbol of a slot starts, from one number on.
pub(crate) fn start_from(n: &Numerology, slot: Option<Slot>, symbol: u8) -> Ticks
    requires { IfSome slot (IsSlot n.now) }
    ensures { (s : Slot) (k : ℕ) → slot ≡ Some s → k < symbols_of n.now → symbol ≤ k → result.0 ≤ℤ air_of n.now s k }
{
    let Some(slot) = slot else {
        return NEVER;
    };
    if symbol < shape(n).symbols {
        air(n, slot, symbol)
    } else {
        NEVER
    }
}

/// Of each place a tick, and the earliest of these.
#[derive(Drop)]
pub(crate) struct Starts {
    places: Vec<Ticks>,
    earliest: Ticks,
}

impl Model for Starts {
    ghost use Rattle.std.specs.Prelude.{List};
    ghost use Rattle.fh_base.specs.declared.values.Ticks.{Ticks as SpecTicks};
    ghost use Rattle.slot_rings.specs.Starts.{IsLeast};

    ghost Value = { List SpecTicks };

    ghost view = { λ s. s.places.items };

    ghost invariant = { λ s. IsLeast s.places.items s.earliest.0 };
}

impl Starts {
    /// Those of so many places, of which no symbol may have cells to report.
    pub(crate) fn make(alloc: Global, places: usize) -> Result<Starts, NoMemory>
        ensures { IfOk result (λ s. length s ≡ places) }
    {
        let starts = vec![in alloc; NEVER; places]?;
        let earliest = earliest_of(starts.as_slice());
        Ok(Starts {
            places: starts,
            earliest,
        })
    }

    /// The earliest tick of all places.
    pub(crate) fn earliest(&self) -> Ticks
        ensures { IsLeast self.now result.0 }
    {
        self.earliest
    }

    /// The tick of a place.
    pub(crate) fn at(&self, index: usize) -> Ticks
        requires { index < length self.now }
        ensures { result.0 ≡ start_at self.now index }
    {
        self.places[index]
    }

    /// Gives a place another tick.
    pub(crate) fn put(&mut self, index: usize, start: Ticks)
        requires { index < length self.old }
        ensures here { start_at self.new index ≡ start.0 }
        ensures others { (i : ℕ) → i ≢ index → start_at self.new i ≡ start_at self.old i }
        ensures size { length self.new ≡ length self.old }
    {
        self.places[index] = start;
        self.earliest = earliest_of(self.places.as_slice());
    }

    /// Gives a place a tick where its own is later.
    fn lower(&mut self, index: usize, start: Ticks)
        requires { index < length self.old }
        ensures here { start_at self.new index ≤ℤ start.0 }
        ensures lower { (i : ℕ) → start_at self.new i ≤ℤ start_at self.old i }
        ensures size { length self.new ≡ length self.old }
    {
        let own = self.places[index];
        self.places[index] = earlier(own, start);
        self.earliest = earlier(self.earliest, start);
    }

    /// Takes note that an allocation claims cells in a place.
    pub(crate) fn claim(&mut self, index: usize, n: &Numerology, a: &Allocation)
        requires index { index < length self.old }
        requires slot { IsSlot n.now a.now.slot }
        ensures here { (k : ℕ) → a.now.down ≡ true → a.now.idle ≡ false → is_from a.now.symbol a.now.num_symbol k ≡ true → k < symbols_of n.now
            → start_at self.new index ≤ℤ air_of n.now a.now.slot k }
        ensures lower { (i : ℕ) → start_at self.new i ≤ℤ start_at self.old i }
        ensures size { length self.new ≡ length self.old }
    {
        if a.down && !a.idle {
            self.lower(index, start_from(n, Some(a.slot), a.symbol));
        }
    }
}
