// The arrivals that a network holds, by their turns.
ghost use Rattle.std.specs.Prelude.{◌≡◌, ◌<ℤ◌, ◌≤ℤ◌, [], ◌∷◌, All, OnOk, OnErr, MatchOption, IfSome, IfNone, is_some, false};
ghost use Rattle.frame_ways.specs.Network.{is_after, put_in, next_of, first_time};

use crate::arrivals::Arrival;
use crate::places::{Turn, place_of};
use fh_base::{NoMemory, Ticks};
use std::alloc::Global;
use std::collections::BTreeMap;
use std::marker::Model;

/// The frames in flight. Contracts see the list of their arrivals, the least first.
#[derive(Drop)]
pub struct Network {
    held: BTreeMap<Turn, Arrival>,
    next: u64,
}

impl Model for Network {
    ghost use Rattle.std.specs.Prelude.{List};
    ghost use Rattle.frame_ways.specs.declared.arrivals.Arrival.{Arrival};

    ghost Value = { List Arrival };

    ghost use Rattle.frame_ways.specs.Held.{arrivals_of, KeepsTurns};

    ghost view = { arrivals_of };

    ghost invariant = { KeepsTurns };
}

impl Network {
    /// Nothing in flight. This takes no memory; later growth takes it from `alloc`.
    pub fn make(alloc: Global) -> Network
        ensures { result ≡ [] }
    {
        Network {
            held: BTreeMap::new(alloc),
            next: 0,
        }
    }

    /// Sends an arrival on its way. It follows all that are not after it, so of two that are
    /// equal in time, unit and key, the one that was put first is given first.
    ///
    /// After `NoMemory` the network is as before. This occurs where memory was refused, and also
    /// where 2^64 - 1 arrivals were put before, so that they could no longer be told apart.
    pub fn put(&mut self, arrival: Arrival) -> Result<(), NoMemory>
        ensures ok { OnOk result (self.new ≡ put_in arrival self.old) }
        ensures err { OnErr result (self.new ≡ self.old) }
    {
        let Some(next) = self.next.checked_add(1) else {
            return Err(NoMemory);
        };
        let turn = Turn {
            place: place_of(&arrival),
            serial: self.next,
        };
        match self.held.insert(turn, arrival) {
            Ok(_) => {
                self.next = next;
                Ok(())
            }
            Err(_) => Err(NoMemory),
        }
    }

    /// Takes out the least arrival that is not after `to`. Where there is none, this is `None` and
    /// the network is as before.
    pub fn next_until(&mut self, to: Ticks) -> Option<Arrival>
        ensures next { result ≡ next_of to.0 self.old }
        ensures left { MatchOption result (self.new ≡ self.old) (λ a. self.old ≡ a ∷ self.new) }
        ensures due { IfSome result (λ a. a.at.0 ≤ℤ to.0) }
        ensures none { IfNone result (All (λ a. to.0 <ℤ a.at.0) self.old) }
        ensures least { IfSome result (λ a. All (λ b. is_after a b ≡ false) self.new) }
    {
        if !self.has_due(to) {
            return None;
        }
        match self.held.pop_first() {
            None => None,
            Some((_, arrival)) => Some(arrival),
        }
    }

    /// The time in ticks of the least arrival, which is the earliest. `None` where none is held.
    pub fn next_time(&self) -> Option<Ticks>
        ensures time { result ≡ first_time self.now }
        ensures least { IfSome result (λ t. All (λ a. t.0 ≤ℤ a.at.0) self.now) }
    {
        match self.held.first_key_value() {
            None => None,
            Some((turn, _)) => Some(turn.place.at),
        }
    }

    /// Whether an arrival is held that is not after `to`.
    fn has_due(&self, to: Ticks) -> bool
        ensures due { result ≡ is_some (next_of to.0 self.now) }
        ensures none { result ≡ false → All (λ a. to.0 <ℤ a.at.0) self.now }
    {
        match self.held.first_key_value() {
            None => false,
            Some((turn, _)) => turn.place.at <= to,
        }
    }
}
