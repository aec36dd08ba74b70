// The counters at the end.
ghost use Rattle.std.specs.Prelude.{◌≡◌, IfErr, OnOk};
ghost use Rattle.air_source.specs.Causes.{HasAirCause};
ghost use Rattle.air_source.specs.Stops.{StopsIn};
ghost use Rattle.delay_exchange.specs.Units.{HasDoings};
ghost use Rattle.delay_measure.specs.declared.edge.Compensation.{Compensation};
ghost use Rattle.document_traffic.specs.Doings.{Doings};
ghost use Rattle.replay_laws.specs.Events.{count_event};
ghost use Rattle.unit_moments.specs.Heard.{HeardAnyhow};
ghost use Rattle.fronthaul_replay.specs.Counting.{told_counts, told_number};

use air_source::{AirFault, Side};
use delay_exchange::UnitMeter;
use fault_counters::{Counter, Counters};
use unit_moments::ListeningAir;

/// A counter's number in the end: those of delay measurement are the meter's, all others the unit's.
fn number_of(counters: &Counters, meter: &UnitMeter, counter: Counter) -> u64
    ensures { (c : Compensation) (x : Doings) → HasDoings c x meter.now → result ≡ told_number counters.now x.counted counter }
{
    match counter {
        Counter::DelayShort | Counter::DelayUnknown | Counter::DelayRepeat | Counter::DelayResult =>
            meter.count(counter),
        _ => counters.get(counter),
    }
}

/// Tells the air of a counter, if it is not at 0.
fn tell_count<A: ListeningAir>(
    side: Side,
    counter: Counter,
    value: u64,
    out: &mut A,
) -> Result<(), AirFault>
    ensures heard { OnOk result (HeardAnyhow A.grew out.old (count_event side value counter) out.new) }
    ensures stop { IfErr result (λ f. StopsIn (HeardAnyhow A.grew) (A.stopped f) (count_event side value counter) out.old out.new) }
    ensures same { A.same out.old out.new }
    ensures cause { HasAirCause (A.faults out.old) (A.faults out.new) result }
{
    if value == 0 {
        return Ok(());
    }
    out.count(side, counter, value)
}

/// Tells the air of a unit's counters that are not at 0.
pub(crate) fn tell_counts<A: ListeningAir>(
    side: Side,
    counters: &Counters,
    meter: &UnitMeter,
    out: &mut A,
) -> Result<(), AirFault>
    requires some { (c : Compensation) × (x : Doings) × HasDoings c x meter.now }
    ensures heard { (c : Compensation) (x : Doings) → HasDoings c x meter.now → OnOk result (HeardAnyhow A.grew out.old (told_counts side counters.now x.counted) out.new) }
    ensures stop { (c : Compensation) (x : Doings) → HasDoings c x meter.now → IfErr result (λ f. StopsIn (HeardAnyhow A.grew) (A.stopped f) (told_counts side counters.now x.counted) out.old out.new) }
    ensures same { A.same out.old out.new }
    ensures cause { HasAirCause (A.faults out.old) (A.faults out.new) result }
{
    for counter in Counter::all() {
        tell_count(side, counter, number_of(counters, meter, counter), out)?;
    }
    Ok(())
}
