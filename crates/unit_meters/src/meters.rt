// Both units' meters, and the measurements that have still to begin.
ghost use Rattle.std.specs.Prelude.{◌≡◌, All, IfOk, map};
ghost use Rattle.fh_document.specs.Proper.{IsMeasure};
ghost use Rattle.unit_meters.specs.Begins.{begin_time};

use air_source::Side;
use delay_exchange::UnitMeter;
use delay_measure::Compensation;
use fh_base::{List, NoMemory, Ticks, of_ns};
use fh_document::Measure;
use frame_ways::LandingQueue;
use std::alloc::Global;

/// The delay measurement of both units, and the measurements that have not begun yet.
#[derive(Drop)]
pub struct Meters<'a> {
    measures: &'a List<Measure>,
    waiting: LandingQueue,
    /// The radio unit's.
    pub ru: UnitMeter,
    /// The distributed unit's.
    pub du: UnitMeter,
}

/// When a measurement begins, in ticks.
fn time_of(measure: &Measure) -> Ticks
    requires { IsMeasure measure.now }
    ensures { result ≡ begin_time measure.now }
{
    of_ns(measure.at)
}

/// The times at which measurements begin, in ticks.
fn times_of(alloc: Global, measures: &List<Measure>) -> Result<Vec<Ticks>, NoMemory>
    requires { All IsMeasure measures.now }
    ensures { IfOk result (λ times. times.items ≡ map begin_time measures.now) }
{
    let mut times = Vec::with_capacity(alloc, measures.len())?;
    for k in 0..measures.len() {
        if let Some(measure) = measures.get(k) {
            times.push(time_of(measure))?;
        }
    }
    Ok(times)
}

impl<'a> Meters<'a> {
    ghost use Rattle.std.specs.Prelude.{ℤ, pos, ◌+ℤ◌, ◌≤ℤ◌, ◌^◌, List as SpecList, OnOk};
    ghost use Rattle.air_source.specs.declared.events.Side.TheVariants.{Du as AtDu, Ru as AtRu};
    ghost use Rattle.delay_exchange.specs.Units.{HasDoings};
    ghost use Rattle.delay_measure.specs.declared.edge.Compensation.{Compensation as SpecCompensation};
    ghost use Rattle.delay_laws.specs.Ticks.{Begin, due};
    ghost use Rattle.delay_measure.specs.Kept.{IsInRange};
    ghost use Rattle.delay_model.specs.Doings.{Doings, nothing, with_begins};
    ghost use Rattle.fh_base.specs.Least.{IsLeastOf};
    ghost use Rattle.unit_meters.specs.Begins.{Awaits, HasBegun, MetersStand, NoneBeginsTo, begin_of, begins_of};

    /// All these measurements wait, with the compensation of each unit.
    ///
    /// # Errors
    ///
    /// [`NoMemory`] where memory runs out.
    pub fn make(
        alloc: Global,
        measures: &'a List<Measure>,
        ru: Compensation,
        du: Compensation,
    ) -> Result<Meters<'a>, NoMemory>
        requires measures { All IsMeasure measures.now }
        requires ru { IsInRange ru }
        requires du { IsInRange du }
        ensures { IfOk result (λ m. (now : ℤ) → now ≤ℤ pos 0 → MetersStand (map begin_of measures.now) now ru du nothing nothing m) }
    {
        let times = times_of(alloc, measures)?;
        let waiting = LandingQueue::make(alloc, times.as_slice())?;
        Ok(Meters {
            measures,
            waiting,
            ru: UnitMeter::make(alloc, ru),
            du: UnitMeter::make(alloc, du),
        })
    }

    /// The next time at which a measurement begins. None where none waits.
    pub fn next_time(&self) -> Option<Ticks>
        ensures { (bs : SpecList Begin) (now : ℤ) → Awaits bs now self.now → IsLeastOf (NoneBeginsTo bs now) result }
    {
        self.waiting.next_time()
    }

    /// Begins all measurements of a tick, in their order. What they send is among the frames that their units made.
    ///
    /// # Errors
    ///
    /// [`NoMemory`] where memory runs out.
    pub fn begin(&mut self, tick: Ticks) -> Result<(), NoMemory>
        requires { (bs : SpecList Begin) × (cr : SpecCompensation) × (cd : SpecCompensation) × (x : Doings) × (y : Doings) × MetersStand bs tick.0 cr cd x y self.old }
        ensures { (bs : SpecList Begin) (cr : SpecCompensation) (cd : SpecCompensation) (x : Doings) (y : Doings) → MetersStand bs tick.0 cr cd x y self.old
            → OnOk result (MetersStand bs (tick.0 +ℤ pos 1) cr cd (with_begins cr x (begins_of AtRu (due tick.0 bs))) (with_begins cd y (begins_of AtDu (due tick.0 bs))) self.new) }
    {
        while let Some(k) = self.waiting.take_at(tick) {
            if let Some(measure) = self.measures.get(k) {
                self.begin_one(tick, measure)?;
            }
        }
        Ok(())
    }

    /// Begins one measurement, at its unit.
    fn begin_one(&mut self, tick: Ticks, measure: &Measure) -> Result<(), NoMemory>
        requires low { pos 0 ≤ℤ tick.0 }
        requires high { tick.0 ≤ℤ pos (2 ^ 56) }
        ensures { (cr : SpecCompensation) (cd : SpecCompensation) (x : Doings) (y : Doings) → HasDoings cr x self.old.ru → HasDoings cd y self.old.du
            → OnOk result (HasBegun tick.0 measure.now cr cd x y self.old self.new) }
    {
        match measure.side {
            Side::Ru => self.ru.begin(tick, measure.id, measure.kind),
            Side::Du => self.du.begin(tick, measure.id, measure.kind),
        }
    }
}
