// The calls, as tests make them: what a call requires holds after the calls before it.
ghost use Rattle.std.specs.Prelude.{◌≡◌, ◌-ℤ◌, ◌≤ℤ◌, true, pos, [], OnErr, OnOk, IfOk};
ghost use Rattle.air_source.specs.Kept.{IsKept};
ghost use Rattle.unit_model.specs.Proper.{IsTime};
ghost use Rattle.unit_model.specs.Standing.{History, owed_until};
ghost use Rattle.ru_buffers.specs.Calls.{StandsFor};
ghost use Rattle.uplink_path.specs.Emitting.{HasFailed};
ghost use Rattle.uplink_path.specs.Steps.{IsSenderOf, IsUnitOf};
ghost use Rattle.window_config.specs.Configs.{IsConfig};
ghost use Rattle.window_config.specs.declared.config.Config.{Config as SpecConfig};

use air_source::{AirFault, Link, MemoryAir, RePlace, Samples};
use bfp_codec::Wide;
use fh_base::{List, NoMemory, Ticks};
use ru_buffers::{Delivered, Ru};
use std::alloc::Global;
use uplink_path::Uplink;
use window_config::Config;

/// No time is further from 0.
const MOST: i64 = 9_007_199_254_740_992;

/// A unit that received nothing.
pub(crate) fn made(alloc: Global, config: &Config) -> Result<Ru, NoMemory>
    requires { IsConfig config.now }
    ensures { IfOk result (λ u. IsUnitOf config.now u) }
{
    Ru::make(alloc, config)
}

/// What sends its frames.
pub(crate) fn sender<F: Fn(RePlace) -> Wide>(
    alloc: Global,
    config: &Config,
    antenna: Samples<F>,
) -> Result<Uplink<F>, NoMemory>
    requires config { IsConfig config.now }
    requires kept { IsKept F.pre F.post antenna }
    ensures { IfOk result (λ u. IsSenderOf F.pre F.post config.now u) }
{
    Uplink::make(alloc, config, antenna)
}

/// Delivers a frame.
pub(crate) fn hand(config: &Config, unit: &mut Ru, frame: &[u8]) -> Delivered
    requires { IsUnitOf config.now unit.old }
    ensures { IsUnitOf config.now unit.new }
{
    let _same = config.fragment;
    unit.deliver(frame)
}

/// The unit's clock.
fn clock_of(config: &Config, unit: &Ru) -> Ticks
    requires { IsUnitOf config.now unit.now }
    ensures { result.0 ≡ unit.now.clock.0 }
{
    let _same = config.fragment;
    unit.clock()
}

/// Whether the unit's clock may go to a time.
fn may_be_next(config: &Config, unit: &Ru, to: Ticks) -> bool
    requires { IsUnitOf config.now unit.now }
    ensures order { result ≡ true → unit.now.clock.0 ≤ℤ to.0 }
    ensures time { result ≡ true → IsTime to.0 }
{
    let clock = clock_of(config, unit);
    clock.0 <= to.0 && -MOST <= to.0 && to.0 <= MOST
}

/// Whether a time is no later than another.
fn is_by(a: Ticks, b: Ticks) -> bool
    ensures { result ≡ true → a.0 ≤ℤ b.0 }
{
    a.0 <= b.0
}

/// Whether nothing is due before a time.
fn is_quiet_before(unit: &Ru, to: Ticks) -> bool
    ensures { (c : SpecConfig) (h : History) → StandsFor c unit.now h → result ≡ true → owed_until c h (to.0 -ℤ pos 1) ≡ [] }
{
    match unit.due() {
        Some(moment) => is_by(to, moment),
        None => true,
    }
}

/// Lets time pass to the next moment at most: after it all calls are allowed.
pub(crate) fn step(
    config: &Config,
    unit: &mut Ru,
    to: Ticks,
    air: &mut MemoryAir,
) -> Result<(), AirFault>
    requires { IsUnitOf config.now unit.old }
    ensures { IsUnitOf config.now unit.new }
{
    if !may_be_next(config, unit, to) {
        return Err(AirFault::NoMemory);
    }
    if !is_quiet_before(unit, to) {
        return Err(AirFault::NoMemory);
    }
    unit.advance(to, air)
}

/// A unit that received a frame at a time, at the next time.
pub(crate) fn commanded(
    alloc: Global,
    config: &Config,
    at: Ticks,
    frame: &[u8],
    to: Ticks,
) -> Result<Ru, NoMemory>
    requires { IsConfig config.now }
    ensures { IfOk result (λ u. IsUnitOf config.now u) }
{
    let mut unit = made(alloc, config)?;
    let mut air = MemoryAir::new(alloc, List::new(alloc));
    if step(config, &mut unit, at, &mut air) != Ok(()) {
        return Err(NoMemory);
    }
    let _read = hand(config, &mut unit, frame);
    if step(config, &mut unit, to, &mut air) != Ok(()) {
        return Err(NoMemory);
    }
    Ok(unit)
}

/// Sends what is due.
pub(crate) fn send<F: Fn(RePlace) -> Wide, L: Link>(
    config: &Config,
    uplink: &mut Uplink<F>,
    unit: &mut Ru,
    link: &mut L,
) -> Result<(), NoMemory>
    requires unit { IsUnitOf config.now unit.old }
    requires sender { IsSenderOf F.pre F.post config.now uplink.old }
    ensures unit { OnOk result (IsUnitOf config.now unit.new) }
    ensures sender { OnOk result (IsSenderOf F.pre F.post config.now uplink.new) }
    ensures failed { OnErr result (HasFailed uplink.new) }
{
    let _same = config.fragment;
    uplink.emit(unit, link)
}
