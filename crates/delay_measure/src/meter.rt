// The delay measurements of a unit whose compensation is asked of a closure.
ghost use Rattle.std.specs.Prelude.{◌≡◌, ◌≢◌, ◌↔◌, ℕ, ℤ, ◌<◌, ◌^◌, ◌≤ℤ◌, pos, List, [], ◌∷◌};

use crate::edge::{Compensation, Edge};
use crate::measurements::Measurements;
use crate::message::DelayMessage;
use crate::steps::{Begun, Kind, MeterStep};
use fh_base::Ticks;

/// The delay measurements of a unit: an exchange for each of the 256 measurement ids, and the closure that answers the
/// compensation at each edge of the unit, in units of 2^-16 ns.
#[derive(Drop)]
pub struct Meter<C: Fn(Edge) -> i64> {
    comp: C,
    measurements: Measurements,
}

impl<C: Fn(Edge) -> i64> Meter<C> {
    ghost use Rattle.delay_measure.specs.Kept.{IsCompensation, IsInRange, IsKept, comp_of, exchange_of};
    ghost use Rattle.delay_measure.specs.Stamps.{sending_stamp, receiving_stamp};
    ghost use Rattle.delay_measure.specs.declared.edge.Edge.TheVariants.{Sending, Receiving};
    ghost use Rattle.delay_measure.specs.After.{Told, begins, comes, forgets, StandsFor};
    ghost use Rattle.delay_measure.specs.Table.{unused, after_begin, after_message, sent_at_begin, sent_at_step, CanBeWritten};
    ghost use Rattle.delay_measure.specs.declared.states.OwnState.TheVariants.{Idle};
    ghost use Rattle.delay_measure.specs.declared.steps.Begun.TheVariants.{InUse};

    /// A meter with a closure that may be called at both edges and has one answer at each, from 0 to 65,536,000,000
    /// units of 2^-16 ns (1 ms). Nothing is begun for any id.
    pub fn keep(comp: C) -> Meter<C>
        requires { IsCompensation C.pre C.post comp }
        ensures kept { IsKept C.pre C.post result }
        ensures same { comp_of result ≡ comp }
        ensures unused { (id : ℕ) → id < 256 → exchange_of result id ≡ unused }
        ensures stands { (s r : ℤ) → StandsFor s r result [] }
    {
        Meter {
            comp,
            measurements: Measurements::new(),
        }
    }

    /// Begins a measurement at a time in ticks from 0 to 2^56. `InUse` exactly where the id's own state is not idle;
    /// nothing changes then.
    pub fn begin(&mut self, at: Ticks, id: u8, kind: Kind) -> Begun
        requires kept { IsKept C.pre C.post self.old }
        requires low { pos 0 ≤ℤ at.0 }
        requires high { at.0 ≤ℤ pos (2 ^ 56) }
        ensures step { (s : ℤ) × C.post (comp_of self.old) Sending s
            × ((exchange_of self.new id, result) ≡ after_begin (exchange_of self.old id) kind id (sending_stamp at.0 s)) }
        ensures others { (i : ℕ) → i ≢ id → exchange_of self.new i ≡ exchange_of self.old i }
        ensures same { comp_of self.new ≡ comp_of self.old }
        ensures stands { (s r : ℤ) (told : List Told) → C.post (comp_of self.old) Sending s
            → StandsFor s r self.old told → StandsFor s r self.new (begins at.0 id kind ∷ told) }
        ensures in_use { (result ≡ InUse) ↔ ((exchange_of self.old id).own ≢ Idle) }
        ensures written { CanBeWritten (sent_at_begin result) }
    {
        let comp = self.compensation();
        self.measurements.begin(comp, at, id, kind)
    }

    /// Takes a message that arrives at a time in ticks from 0 to 2^56. What it answers is sent at that time.
    pub fn on_message(&mut self, at: Ticks, m: &DelayMessage) -> MeterStep
        requires kept { IsKept C.pre C.post self.old }
        requires low { pos 0 ≤ℤ at.0 }
        requires high { at.0 ≤ℤ pos (2 ^ 56) }
        ensures step { (s : ℤ) × (r : ℤ) × C.post (comp_of self.old) Sending s × C.post (comp_of self.old) Receiving r
            × ((exchange_of self.new m.now.id, result)
            ≡ after_message (exchange_of self.old m.now.id) m.now (sending_stamp at.0 s) (receiving_stamp at.0 r)) }
        ensures others { (i : ℕ) → i ≢ m.now.id → exchange_of self.new i ≡ exchange_of self.old i }
        ensures same { comp_of self.new ≡ comp_of self.old }
        ensures stands { (s r : ℤ) (told : List Told) → C.post (comp_of self.old) Sending s → C.post (comp_of self.old) Receiving r
            → StandsFor s r self.old told → StandsFor s r self.new (comes at.0 m.now ∷ told) }
        ensures written { CanBeWritten (sent_at_step result) }
    {
        let comp = self.compensation();
        self.measurements.on_message(comp, at, m)
    }

    /// Makes the id's own state idle, and forgets what the peer has begun. All other ids stay.
    pub fn forget(&mut self, id: u8)
        ensures unused { exchange_of self.new id ≡ unused }
        ensures others { (i : ℕ) → i ≢ id → exchange_of self.new i ≡ exchange_of self.old i }
        ensures same { comp_of self.new ≡ comp_of self.old }
        ensures stands { (s r : ℤ) (told : List Told) → StandsFor s r self.old told → StandsFor s r self.new (forgets id ∷ told) }
    {
        self.measurements.forget(id);
    }

    // What the closure answers at both edges.
    fn compensation(&self) -> Compensation
        requires { IsKept C.pre C.post self.now }
        ensures sending { C.post (comp_of self.now) Sending result.sending }
        ensures receiving { C.post (comp_of self.now) Receiving result.receiving }
        ensures range { IsInRange result }
    {
        Compensation {
            sending: (self.comp)(Edge::Sending),
            receiving: (self.comp)(Edge::Receiving),
        }
    }
}
