// The calls of a radio unit, from moment to moment.
ghost use Rattle.std.specs.Prelude.{◌≡◌, ◌≤ℤ◌, ◌-ℤ◌, ◌^◌, pos, true, [], OnSome};
ghost use Rattle.window_config.specs.declared.config.Config.{Config};
ghost use Rattle.unit_model.specs.Standing.{History, owed_until};
ghost use Rattle.unit_model.specs.Proper.{IsTime};
ghost use Rattle.ru_buffers.specs.Calls.{HasGivenPast, StandsFor, StandsForSome};

use air_source::Air;
use fh_base::Ticks;
use ru_buffers::Ru;

/// How many moments, and messages of one moment, are passed at most.
const MOST: u32 = 1000;

/// Lets a frame arrive.
pub fn deliver(ru: &mut Ru, frame: &[u8])
    requires unit { StandsForSome ru.old }
    requires given { HasGivenPast ru.old }
    ensures unit { StandsForSome ru.new }
    ensures given { HasGivenPast ru.new }
{
    let _ = ru.deliver(frame);
}

/// Takes the next uplink message. Whether there was one.
fn give(ru: &mut Ru) -> bool
    requires unit { StandsForSome ru.old }
    requires given { HasGivenPast ru.old }
    ensures unit { StandsForSome ru.new }
    ensures given { HasGivenPast ru.new }
{
    ru.next_uplink().is_some()
}

/// Takes the uplink messages of the clock.
fn give_all(ru: &mut Ru)
    requires unit { StandsForSome ru.old }
    requires given { HasGivenPast ru.old }
    ensures unit { StandsForSome ru.new }
    ensures given { HasGivenPast ru.new }
{
    for _ in 0..MOST {
        if !give(ru) {
            break;
        }
    }
}

/// The earlier of two times.
fn earlier(a: Ticks, b: Ticks) -> Ticks
    ensures first { result.0 ≤ℤ a.0 }
    ensures second { result.0 ≤ℤ b.0 }
{
    if a.0 < b.0 { a } else { b }
}

/// The next moment of a unit, but at most a time.
fn next_moment(ru: &Ru, to: Ticks) -> Ticks
    ensures most { result.0 ≤ℤ to.0 }
    ensures given { (c : Config) (h : History) → StandsFor c ru.now h → owed_until c h (result.0 -ℤ pos 1) ≡ [] }
{
    match ru.due() {
        Some(due) => earlier(due, to),
        None => to,
    }
}

/// A unit's clock.
fn clock_of(ru: &Ru) -> Ticks
    requires { StandsForSome ru.now }
    ensures { result.0 ≡ ru.now.clock.0 }
{
    ru.clock()
}

/// Advances to a moment before which nothing is left to give, where it is not before the clock. Whether it is there.
fn go<A: Air>(ru: &mut Ru, next: Ticks, air: &mut A) -> bool
    requires unit { StandsForSome ru.old }
    requires given { HasGivenPast ru.old }
    requires time { IsTime next.0 }
    requires none { (c : Config) (h : History) → StandsFor c ru.old h → owed_until c h (next.0 -ℤ pos 1) ≡ [] }
    ensures unit { result ≡ true → StandsForSome ru.new }
    ensures given { result ≡ true → HasGivenPast ru.new }
{
    if next.0 < clock_of(ru).0 {
        return false;
    }
    match ru.advance(next, air) {
        Ok(()) => true,
        Err(_) => false,
    }
}

/// Advances to the next moment, but at most to a time. Whether it is there, and None where that cannot be.
fn step<A: Air>(ru: &mut Ru, to: Ticks, air: &mut A) -> Option<bool>
    requires unit { StandsForSome ru.old }
    requires given { HasGivenPast ru.old }
    requires time { to.0 ≤ℤ pos (2 ^ 53) }
    ensures unit { OnSome result (StandsForSome ru.new) }
    ensures given { OnSome result (HasGivenPast ru.new) }
{
    let next = next_moment(ru, to);
    if next.0 < 0 {
        return None;
    }
    if go(ru, next, air) {
        Some(next.0 == to.0)
    } else {
        None
    }
}

/// Advances to a time, by way of the moments before it. Whether it reached that time.
pub fn advance<A: Air>(ru: &mut Ru, to: Ticks, air: &mut A) -> bool
    requires unit { StandsForSome ru.old }
    requires given { HasGivenPast ru.old }
    requires time { to.0 ≤ℤ pos (2 ^ 53) }
    ensures unit { result ≡ true → StandsForSome ru.new }
    ensures given { result ≡ true → HasGivenPast ru.new }
{
    for _ in 0..MOST {
        match step(ru, to, air) {
            Some(true) => return true,
            Some(false) => give_all(ru),
            None => return false,
        }
    }
    false
}
