// The unit's calls, as tests make them: what a call requires holds after the calls before it.
ghost use Rattle.std.specs.Prelude.{◌≡◌, [], true, IfOk, OnErr, pos, ◌≤ℤ◌, ◌-ℤ◌};
ghost use Rattle.window_config.specs.Configs.{IsConfig};
ghost use Rattle.window_config.specs.declared.config.Config.{Config as SpecConfig};
ghost use Rattle.unit_model.specs.Proper.{IsTime};
ghost use Rattle.unit_model.specs.Standing.{History, owed_until};
ghost use Rattle.ru_buffers.specs.Calls.{HasGivenPast, StandsFor, StandsForSome};

use air_source::{AirCell, AirFault, Event, MemoryAir};
use fault_counters::{Counter, Counters};
use fh_base::{NoMemory, Ticks};
use ru_buffers::{Delivered, Ru, UplinkJob};
use std::alloc::Global;
use window_config::Config;

/// No time is further from 0.
const MOST: i64 = 9_007_199_254_740_992;

/// All was read of a frame with one message.
pub(crate) const READ: Delivered = Delivered {
    messages: 1,
    refusal: None,
};

/// A unit that received nothing.
pub(crate) fn made(alloc: Global, config: &Config) -> Result<Ru, NoMemory>
    requires { IsConfig config.now }
    ensures unit { IfOk result (λ u. StandsForSome u) }
    ensures given { IfOk result (λ u. HasGivenPast u) }
{
    Ru::make(alloc, config)
}

/// Delivers a frame.
pub(crate) fn hand(unit: &mut Ru, frame: &[u8]) -> Delivered
    requires unit { StandsForSome unit.old }
    requires given { HasGivenPast unit.old }
    ensures unit { StandsForSome unit.new }
    ensures given { HasGivenPast unit.new }
{
    unit.deliver(frame)
}

/// The unit's clock.
fn clock_of(unit: &Ru) -> Ticks
    requires { StandsForSome unit.now }
    ensures { result.0 ≡ unit.now.clock.0 }
{
    unit.clock()
}

/// Whether the unit's clock may go to a time.
fn may_be_next(unit: &Ru, to: Ticks) -> bool
    requires { StandsForSome unit.now }
    ensures order { result ≡ true → unit.now.clock.0 ≤ℤ to.0 }
    ensures time { result ≡ true → IsTime to.0 }
{
    let clock = clock_of(unit);
    clock.0 <= to.0 && -MOST <= to.0 && to.0 <= MOST
}

/// Lets time pass.
pub(crate) fn pass(unit: &mut Ru, to: Ticks, air: &mut MemoryAir) -> Result<(), AirFault>
    requires unit { StandsForSome unit.old }
    requires given { HasGivenPast unit.old }
    ensures unit { StandsForSome unit.new }
    ensures given { OnErr result (HasGivenPast unit.new) }
{
    if !may_be_next(unit, to) {
        return Err(AirFault::NoMemory);
    }
    unit.advance(to, air)
}

/// Lets time pass. Whether the air fails.
pub(crate) fn stops(unit: &mut Ru, to: Ticks, air: &mut MemoryAir) -> bool
    requires unit { StandsForSome unit.old }
    requires given { HasGivenPast unit.old }
    ensures unit { StandsForSome unit.new }
    ensures given { result ≡ true → HasGivenPast unit.new }
{
    match pass(unit, to, air) {
        Ok(()) => false,
        Err(fault) => fault == AirFault::Failed,
    }
}

/// Whether a time is not after another.
fn is_by(a: Ticks, b: Ticks) -> bool
    ensures { result ≡ true → a.0 ≤ℤ b.0 }
{
    a.0 <= b.0
}

/// Whether nothing is due before a time.
fn is_quiet_before(unit: &Ru, to: Ticks) -> bool
    ensures { (c : SpecConfig) (h : History) → StandsFor c unit.now h → result ≡ true → owed_until c h (to.0 -ℤ pos 1) ≡ [] }
{
    match unit.due() {
        Some(moment) => is_by(to, moment),
        None => true,
    }
}

/// Lets time pass to the next moment at most: after it all calls are allowed.
pub(crate) fn step(unit: &mut Ru, to: Ticks, air: &mut MemoryAir) -> Result<(), AirFault>
    requires unit { StandsForSome unit.old }
    requires given { HasGivenPast unit.old }
    ensures unit { StandsForSome unit.new }
    ensures given { HasGivenPast unit.new }
{
    if !may_be_next(unit, to) {
        return Err(AirFault::NoMemory);
    }
    if !is_quiet_before(unit, to) {
        return Err(AirFault::NoMemory);
    }
    unit.advance(to, air)
}

/// The next uplink message.
pub(crate) fn take(unit: &mut Ru) -> Option<UplinkJob>
    requires unit { StandsForSome unit.old }
    requires given { HasGivenPast unit.old }
    ensures unit { StandsForSome unit.new }
    ensures given { HasGivenPast unit.new }
{
    unit.next_uplink()
}

/// The cell that an air heard at this place.
pub(crate) fn cell_heard(air: &MemoryAir, place: usize) -> Option<AirCell> {
    match air.heard().get(place) {
        Some(Event::Cell(cell)) => Some(*cell),
        _ => None,
    }
}

/// Whether these counters alone are above 0, at these values.
pub(crate) fn has_counted(counters: &Counters, wanted: &[(Counter, u64)]) -> bool {
    for counter in Counter::all() {
        let mut value = 0;
        for (other, times) in wanted {
            if *other == counter {
                value = *times;
            }
        }
        if counters.get(counter) != value {
            return false;
        }
    }
    true
}
