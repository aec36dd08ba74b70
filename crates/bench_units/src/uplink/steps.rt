// The calls, as tests make them: what a call requires holds after the calls before it.
ghost use Rattle.std.specs.Prelude.{◌≡◌, ◌-ℤ◌, ◌≤ℤ◌, true, pos, [], OnErr, OnOk, IfSome};
ghost use Rattle.air_source.specs.Kept.{IsKept};
ghost use Rattle.unit_model.specs.Proper.{IsTime};
ghost use Rattle.unit_model.specs.Standing.{History, owed_until};
ghost use Rattle.ru_buffers.specs.Calls.{StandsFor};
ghost use Rattle.uplink_path.specs.Emitting.{HasFailed};
ghost use Rattle.uplink_path.specs.Steps.{IsSenderOf, IsUnitOf};
ghost use Rattle.window_config.specs.Configs.{IsConfig};
ghost use Rattle.window_config.specs.declared.config.Config.{Config as SpecConfig};

use air_source::{AirFault, Link, MemoryAir, MemoryLink, RePlace, Samples};
use bfp_codec::Wide;
use fh_base::{NoMemory, Ticks};
use ru_buffers::{Delivered, Ru};
use std::alloc::Global;
use uplink_path::Uplink;
use window_config::Config;

/// No time is further from 0.
const MOST: i64 = 9_007_199_254_740_992;

/// So many moments are passed at most.
const MOMENTS: u32 = 1000;

/// A unit that received nothing.
pub fn made(alloc: Global, config: &Config) -> Option<Ru>
    requires { IsConfig config.now }
    ensures { IfSome result (λ u. IsUnitOf config.now u) }
{
    match Ru::make(alloc, config) {
        Ok(unit) => Some(unit),
        Err(_) => None,
    }
}

/// What sends its frames.
pub fn sender<F: Fn(RePlace) -> Wide>(
    alloc: Global,
    config: &Config,
    antenna: Samples<F>,
) -> Option<Uplink<F>>
    requires config { IsConfig config.now }
    requires kept { IsKept F.pre F.post antenna }
    ensures { IfSome result (λ u. IsSenderOf F.pre F.post config.now u) }
{
    match Uplink::make(alloc, config, antenna) {
        Ok(uplink) => Some(uplink),
        Err(_) => None,
    }
}

/// Delivers a frame.
pub fn hand(config: &Config, unit: &mut Ru, frame: &[u8]) -> Delivered
    requires { IsUnitOf config.now unit.old }
    ensures { IsUnitOf config.now unit.new }
{
    let _same = config.fragment;
    unit.deliver(frame)
}

/// The unit's clock.
fn clock_of(config: &Config, unit: &Ru) -> Ticks
    requires { IsUnitOf config.now unit.now }
    ensures { result.0 ≡ unit.now.clock.0 }
{
    let _same = config.fragment;
    unit.clock()
}

/// Whether the unit's clock may go to a time.
fn may_be_next(config: &Config, unit: &Ru, to: Ticks) -> bool
    requires { IsUnitOf config.now unit.now }
    ensures order { result ≡ true → unit.now.clock.0 ≤ℤ to.0 }
    ensures time { result ≡ true → IsTime to.0 }
{
    let clock = clock_of(config, unit);
    clock.0 <= to.0 && -MOST <= to.0 && to.0 <= MOST
}

/// Whether a time is not after another.
fn is_by(a: Ticks, b: Ticks) -> bool
    ensures { result ≡ true → a.0 ≤ℤ b.0 }
{
    a.0 <= b.0
}

/// Whether nothing is due before a time.
fn is_quiet_before(unit: &Ru, to: Ticks) -> bool
    ensures { (c : SpecConfig) (h : History) → StandsFor c unit.now h → result ≡ true → owed_until c h (to.0 -ℤ pos 1) ≡ [] }
{
    match unit.due() {
        Some(moment) => is_by(to, moment),
        None => true,
    }
}

/// Lets time pass to the next moment at most: after it all calls are allowed.
pub fn step(config: &Config, unit: &mut Ru, to: Ticks, air: &mut MemoryAir) -> Result<(), AirFault>
    requires { IsUnitOf config.now unit.old }
    ensures { IsUnitOf config.now unit.new }
{
    if !may_be_next(config, unit, to) {
        return Err(AirFault::NoMemory);
    }
    if !is_quiet_before(unit, to) {
        return Err(AirFault::NoMemory);
    }
    unit.advance(to, air)
}

/// Sends what is due.
pub fn send<F: Fn(RePlace) -> Wide, L: Link>(
    config: &Config,
    uplink: &mut Uplink<F>,
    unit: &mut Ru,
    link: &mut L,
) -> Result<(), NoMemory>
    requires unit { IsUnitOf config.now unit.old }
    requires sender { IsSenderOf F.pre F.post config.now uplink.old }
    ensures unit { OnOk result (IsUnitOf config.now unit.new) }
    ensures sender { OnOk result (IsSenderOf F.pre F.post config.now uplink.new) }
    ensures failed { OnErr result (HasFailed uplink.new) }
{
    let _same = config.fragment;
    uplink.emit(unit, link)
}

/// The next moment of a unit, but at most a time.
fn next_moment(unit: &Ru, to: Ticks) -> Ticks {
    match unit.due() {
        Some(moment) => { if is_by(to, moment) { to } else { moment } }
        None => to,
    }
}

/// Lets time pass to a time, by way of the moments before it, and sends what is due at each. Whether it reached that time.
pub fn pass<F: Fn(RePlace) -> Wide>(
    config: &Config,
    uplink: &mut Uplink<F>,
    unit: &mut Ru,
    air: &mut MemoryAir,
    link: &mut MemoryLink,
    to: Ticks,
) -> bool
    requires unit { IsUnitOf config.now unit.old }
    requires sender { IsSenderOf F.pre F.post config.now uplink.old }
    ensures unit { result ≡ true → IsUnitOf config.now unit.new }
    ensures sender { result ≡ true → IsSenderOf F.pre F.post config.now uplink.new }
{
    for _ in 0..MOMENTS {
        let next = next_moment(unit, to);
        if step(config, unit, next, air) != Ok(()) {
            return false;
        }
        if send(config, uplink, unit, link).is_err() {
            return false;
        }
        if is_by(to, next) {
            return true;
        }
    }
    false
}
