// The exchanges of all measurement ids.
ghost use Rattle.std.specs.Prelude.{◌≡◌, ◌≢◌, ◌↔◌, ℕ, ℤ, ◌<◌, ◌^◌, ◌≤ℤ◌, pos, List, ◌∷◌};

use crate::edge::Compensation;
use crate::message::DelayMessage;
use crate::stamps::{stamp_received, stamp_sent};
use crate::states::Exchange;
use crate::steps::{Begun, Kind, MeterStep};
use fh_base::Ticks;

/// The delay measurements of a unit: an exchange for each of the 256 measurement ids. Each call is given the unit's
/// compensation.
#[derive(Drop)]
pub struct Measurements {
    exchanges: [Exchange; 256],
}

impl Measurements {
    ghost use Rattle.delay_measure.specs.Kept.{IsInRange, exchange_at};
    ghost use Rattle.delay_measure.specs.Stamps.{sending_stamp, receiving_stamp};
    ghost use Rattle.delay_measure.specs.After.{Told, begins, comes, forgets, AreAfter};
    ghost use Rattle.delay_measure.specs.Table.{unused, after_begin, after_message, sent_at_begin, sent_at_step, CanBeWritten};
    ghost use Rattle.delay_measure.specs.declared.states.OwnState.TheVariants.{Idle};
    ghost use Rattle.delay_measure.specs.declared.steps.Begun.TheVariants.{InUse};

    /// Nothing is begun for any id.
    pub fn new() -> Measurements
        ensures { (id : ℕ) → id < 256 → exchange_at result id ≡ unused }
    {
        Measurements {
            exchanges: [Exchange::UNUSED; 256],
        }
    }

    /// Begins a measurement at a time in ticks from 0 to 2^56. `InUse` exactly where the id's own state is not idle;
    /// nothing changes then.
    pub fn begin(&mut self, comp: Compensation, at: Ticks, id: u8, kind: Kind) -> Begun
        requires range { IsInRange comp }
        requires low { pos 0 ≤ℤ at.0 }
        requires high { at.0 ≤ℤ pos (2 ^ 56) }
        ensures step { (exchange_at self.new id, result) ≡ after_begin (exchange_at self.old id) kind id (sending_stamp at.0 comp.sending) }
        ensures others { (i : ℕ) → i ≢ id → exchange_at self.new i ≡ exchange_at self.old i }
        ensures after { (r : ℤ) (told : List Told) → AreAfter comp.sending r told self.old → AreAfter comp.sending r (begins at.0 id kind ∷ told) self.new }
        ensures in_use { (result ≡ InUse) ↔ ((exchange_at self.old id).own ≢ Idle) }
        ensures written { CanBeWritten (sent_at_begin result) }
    {
        let now = stamp_sent(at, comp);
        let (exchange, begun) = self.exchanges[id as usize].begin(kind, id, now);
        self.exchanges[id as usize] = exchange;
        begun
    }

    /// Takes a message that arrives at a time in ticks from 0 to 2^56. What it answers is sent at that time.
    pub fn on_message(&mut self, comp: Compensation, at: Ticks, m: &DelayMessage) -> MeterStep
        requires range { IsInRange comp }
        requires low { pos 0 ≤ℤ at.0 }
        requires high { at.0 ≤ℤ pos (2 ^ 56) }
        ensures step { (exchange_at self.new m.now.id, result)
            ≡ after_message (exchange_at self.old m.now.id) m.now (sending_stamp at.0 comp.sending) (receiving_stamp at.0 comp.receiving) }
        ensures others { (i : ℕ) → i ≢ m.now.id → exchange_at self.new i ≡ exchange_at self.old i }
        ensures after { (told : List Told) → AreAfter comp.sending comp.receiving told self.old → AreAfter comp.sending comp.receiving (comes at.0 m.now ∷ told) self.new }
        ensures written { CanBeWritten (sent_at_step result) }
    {
        let message = *m;
        let sending = stamp_sent(at, comp);
        let receiving = stamp_received(at, comp);
        let (exchange, step) = self.exchanges[message.id as usize].take(
            message, sending, receiving,
        );
        self.exchanges[message.id as usize] = exchange;
        step
    }

    /// Makes the id's own state idle, and forgets what the peer has begun. All other ids stay.
    pub fn forget(&mut self, id: u8)
        ensures unused { exchange_at self.new id ≡ unused }
        ensures others { (i : ℕ) → i ≢ id → exchange_at self.new i ≡ exchange_at self.old i }
        ensures after { (s r : ℤ) (told : List Told) → AreAfter s r told self.old → AreAfter s r (forgets id ∷ told) self.new }
    {
        self.exchanges[id as usize] = Exchange::UNUSED;
    }
}
