// What a unit reports, told to what listens to it.
ghost use Rattle.std.specs.Prelude.{◌≡◌, refl};
ghost use Rattle.std.proofs.Common.{◌∙◌};
ghost use Rattle.unit_moments.specs.Heard.{HeardAnyhow, without_frames};
ghost use Rattle.unit_moments.specs.HeardLaws.{reports_more};

use crate::listening::ListeningAir;
use air_source::{Air, AirCell, AirFault, Side};
use fault_counters::Counter;
use fh_base::Ticks;

/// An air for what a unit reports by itself: it passes all events on but frames, which are handed over with the unit at which they arrive.
#[derive(Drop)]
pub struct Reports<'a, A> {
    air: &'a mut A,
}

impl<'a, A: ListeningAir> Reports<'a, A> {
    ghost use Rattle.unit_moments.specs.Airs.{air_name, air_of};

    /// It passes on to this air.
    pub fn to(air: &'a mut A) -> Reports<'a, A>
        ensures reference { air_name result ≡ air.entry.ghost_name }
        ensures unchanged { air_of result ≡ air.old }
    {
        Reports { air }
    }
}

impl<'a, A: ListeningAir> Air for Reports<'a, A> {
    ghost use Rattle.unit_moments.specs.Airs.{air_name, air_of};

    ghost faults = { λ a. A.ListeningAir.faults (air_of a) };

    ghost grew = { λ a events b. HeardAnyhow A.ListeningAir.grew (air_of a) (without_frames events) (air_of b) };

    ghost stopped = { λ f a event b. A.ListeningAir.stopped f (air_of a) event (air_of b) };

    ghost same = { λ a b. (air_name b ≡ air_name a) × A.ListeningAir.same (air_of a) (air_of b) };

    ghost grew_none = { λ a k earlier. A.ListeningAir.grew_none k earlier (air_of a) };

    ghost grew_more = { λ a b c first second one two. reports_more A.ListeningAir.grew A.ListeningAir.grew_more (air_of a) (air_of b) (air_of c) first second one two };

    ghost same_none = { λ a. (refl, A.ListeningAir.same_none (air_of a)) };

    ghost same_more = { λ a b c one two. (two.0 ∙ one.0, A.ListeningAir.same_more (air_of a) (air_of b) (air_of c) one.1 two.1) };

    fn cell(&mut self, c: &AirCell) -> Result<(), AirFault> {
        self.air.cell(c)
    }

    fn delay(&mut self, at: Ticks, side: Side, id: u8, value: i128) -> Result<(), AirFault> {
        self.air.delay(at, side, id, value)
    }

    /// Passes a frame over.
    fn arrival(&mut self, _side: Side, _at: Ticks, _frame: &[u8]) -> Result<(), AirFault> {
        Ok(())
    }

    fn count(&mut self, side: Side, counter: Counter, value: u64) -> Result<(), AirFault> {
        self.air.count(side, counter, value)
    }
}
