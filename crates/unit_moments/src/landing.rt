// The frames that land at a unit at one time.
ghost use Rattle.std.specs.Prelude.{◌≡◌, pos, ◌<◌, ◌≤ℤ◌, ◌^◌, List, [], IsErrOf, OnOk, length};
ghost use Rattle.air_source.specs.Causes.{HasAirCause};
ghost use Rattle.air_source.specs.declared.airs.AirFault.TheVariants.{Failed, NoMemory as WantsMemory};
ghost use Rattle.delay_exchange.specs.Units.{HasDoings};
ghost use Rattle.delay_measure.specs.declared.edge.Compensation.{Compensation};
ghost use Rattle.delay_model.specs.Doings.{Doings, with_frame};
ghost use Rattle.air_source.specs.declared.events.Event.{Event};
ghost use Rattle.unit_memory.specs.Control.{has_delay};
ghost use Rattle.unit_model.specs.Heard.{arrivals_heard};
ghost use Rattle.frame_ways.specs.Landing.{landing_at};
ghost use Rattle.frame_ways.specs.Landed.{bytes_of};
ghost use Rattle.frame_ways.specs.Ways.{OnWay, landings_on};
ghost use Rattle.window_config.specs.declared.config.Config.{Config};
ghost use Rattle.unit_model.specs.Standing.{History, arrived, at_clock};
ghost use Rattle.unit_model.specs.declared.allocations.Allocation.{Allocation};
ghost use Rattle.unit_moments.specs.Landing.{HasTaken, HaveLanded, MayLand, landed, told_of_frame, told_of_frames};
ghost use Rattle.unit_moments.specs.Stops.{HaltsBehind, StopsBehind};

use crate::listening::ListeningAir;
use crate::results::tell_results;
use air_source::{AirFault, Side};
use delay_exchange::UnitMeter;
use fh_base::{NoMemory, Ticks};
use frame_ways::{FramePool, Landed, Way};
use unit_memory::TakesFrames;

/// Tells a unit's meter a frame, where it has a message of delay measurement.
fn measure(at: Ticks, bytes: &[u8], measures: bool, meter: &mut UnitMeter) -> Result<(), NoMemory>
    requires measures { measures ≡ has_delay bytes.now }
    requires low { pos 0 ≤ℤ at.0 }
    requires high { at.0 ≤ℤ pos (2 ^ 56) }
    ensures { OnOk result ((c : Compensation) (x : Doings) → HasDoings c x meter.old → HasDoings c (with_frame c at.0 x bytes.now) meter.new) }
{
    if measures {
        meter.tell(at, bytes)
    } else {
        meter.pass();
        Ok(())
    }
}

/// Tells the air of a frame that arrives, which hands it to the unit, and then the unit's meter; the delays that it makes known are told
/// after it.
fn hear<U: TakesFrames, A: ListeningAir>(
    side: Side,
    at: Ticks,
    frame: &Landed<'_>,
    unit: &mut U,
    meter: &mut UnitMeter,
    out: &mut A,
) -> Result<(), AirFault>
    requires short { length (bytes_of frame.now) < 2 ^ 32 }
    requires side { side ≡ U.side }
    requires unit { (k : Config) × (planned : List Allocation) × (h : History) × U.may_take unit.old k planned at.0 h }
    requires low { pos 0 ≤ℤ at.0 }
    requires high { at.0 ≤ℤ pos (2 ^ 56) }
    ensures heard { (c : Compensation) (x : Doings) (k : Config) (planned : List Allocation) (h : History) (earlier : List Event) → HasDoings c x meter.old
        → U.may_take unit.old k planned at.0 h → h.arrivals ≡ arrivals_heard side [] earlier
        → OnOk result (A.grew k earlier out.old (told_of_frame side c at.0 x (bytes_of frame.now)) out.new) }
    ensures took { OnOk result ((k : Config) (planned : List Allocation) (h : History) → U.may_take unit.old k planned at.0 h
        → U.may_take unit.new k planned at.0 (arrived (at_clock h at.0) (bytes_of frame.now))) }
    ensures made { (c : Compensation) (x : Doings) → HasDoings c x meter.old → OnOk result (HasDoings c (with_frame c at.0 x (bytes_of frame.now)) meter.new) }
    ensures stop { (c : Compensation) (x : Doings) (k : Config) (planned : List Allocation) (h : History) (earlier : List Event) → HasDoings c x meter.old
        → U.may_take unit.old k planned at.0 h → h.arrivals ≡ arrivals_heard side [] earlier → IsErrOf result Failed
        → StopsBehind (A.grew k earlier) (A.stopped Failed) (HasTaken (U.may_take unit.new k planned at.0) side h) [] (told_of_frame side c at.0 x (bytes_of frame.now)) out.old out.new }
    ensures wants { (c : Compensation) (x : Doings) (k : Config) (planned : List Allocation) (h : History) (earlier : List Event) → HasDoings c x meter.old
        → U.may_take unit.old k planned at.0 h → h.arrivals ≡ arrivals_heard side [] earlier → IsErrOf result WantsMemory
        → HaltsBehind (A.grew k earlier) (A.stopped WantsMemory) (HasTaken (U.may_take unit.new k planned at.0) side h) [] (told_of_frame side c at.0 x (bytes_of frame.now)) out.old out.new }
    ensures same { A.same out.old out.new }
    ensures cause { HasAirCause (A.faults out.old) (A.faults out.new) result }
{
    let bytes = frame.as_slice();
    let measures = out.arrival(side, at, bytes, unit)?;
    measure(at, bytes, measures, meter)?;
    tell_results(side, at, meter.results(), out)
}

/// Lets all frames land that are received at a unit at a tick: those that were sent, and after them the document's.
///
/// # Errors
///
/// The air's own fault, or `NoMemory` where memory runs out in the meter.
pub fn land<U: TakesFrames, A: ListeningAir>(
    side: Side,
    tick: Ticks,
    unit: &mut U,
    meter: &mut UnitMeter,
    way: &mut Way<'_>,
    pool: &mut FramePool,
    out: &mut A,
) -> Result<(), AirFault>
    requires side { side ≡ U.side }
    requires unit { (k : Config) × (planned : List Allocation) × (h : History) × U.may_take unit.old k planned tick.0 h }
    requires some { (v : OnWay) × (c : Compensation) × (x : Doings) × MayLand v tick.0 c x way.old meter.old }
    ensures heard { (v : OnWay) (c : Compensation) (x : Doings) (k : Config) (planned : List Allocation) (h : History) (earlier : List Event)
        → MayLand v tick.0 c x way.old meter.old → U.may_take unit.old k planned tick.0 h → h.arrivals ≡ arrivals_heard side [] earlier
        → OnOk result (A.grew k earlier out.old (told_of_frames side c tick.0 x (landing_at (landings_on v) tick.0)) out.new) }
    ensures landed { (v : OnWay) (c : Compensation) (x : Doings) → MayLand v tick.0 c x way.old meter.old
        → OnOk result (HaveLanded v tick.0 c x meter.new way.new) }
    ensures took { (v : OnWay) (c : Compensation) (x : Doings) (k : Config) (planned : List Allocation) (h : History) → MayLand v tick.0 c x way.old meter.old
        → U.may_take unit.old k planned tick.0 h → OnOk result (U.may_take unit.new k planned tick.0 (landed tick.0 h (landing_at (landings_on v) tick.0))) }
    ensures stop { (v : OnWay) (c : Compensation) (x : Doings) (k : Config) (planned : List Allocation) (h : History) (earlier : List Event)
        → MayLand v tick.0 c x way.old meter.old → U.may_take unit.old k planned tick.0 h → h.arrivals ≡ arrivals_heard side [] earlier → IsErrOf result Failed
        → StopsBehind (A.grew k earlier) (A.stopped Failed) (HasTaken (U.may_take unit.new k planned tick.0) side h) [] (told_of_frames side c tick.0 x (landing_at (landings_on v) tick.0)) out.old out.new }
    ensures wants { (v : OnWay) (c : Compensation) (x : Doings) (k : Config) (planned : List Allocation) (h : History) (earlier : List Event)
        → MayLand v tick.0 c x way.old meter.old → U.may_take unit.old k planned tick.0 h → h.arrivals ≡ arrivals_heard side [] earlier → IsErrOf result WantsMemory
        → HaltsBehind (A.grew k earlier) (A.stopped WantsMemory) (HasTaken (U.may_take unit.new k planned tick.0) side h) [] (told_of_frames side c tick.0 x (landing_at (landings_on v) tick.0)) out.old out.new }
    ensures same { A.same out.old out.new }
    ensures cause { HasAirCause (A.faults out.old) (A.faults out.new) result }
{
    while let Some(frame) = way.next_at(tick) {
        hear(side, tick, &frame, unit, meter, out)?;
        frame.give_back(pool);
    }
    Ok(())
}
