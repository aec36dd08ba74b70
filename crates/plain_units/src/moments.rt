// When the symbols of allocations start.
ghost use Rattle.std.specs.Prelude.{◌≡◌, ℕ, ℤ, pos, neg_ℤ, ◌+◌, ◌^◌, ◌≤◌, ◌<◌, ◌≤ℤ◌, ◌<ℤ◌, All, IfSome, MatchOption, length};
ghost use Rattle.plain_units.specs.ClaimedStarts.{HasStarts, IsNotMissed, OfEachSymbol, IsQuiet};

use fh_base::{Ticks, air};
use unit_model::Allocation;

/// The earlier one of the next start so far and a start, where this is not before a tick.
fn nearer(next: Option<Ticks>, from: Ticks, start: Ticks) -> Option<Ticks>
    requires { IfSome next (λ t. from.0 ≤ℤ t.0) }
    ensures low { IfSome result (λ t. from.0 ≤ℤ t.0) }
    ensures start { IsNotMissed from.0 result start.0 }
    ensures others { (t : ℤ) → IsNotMissed from.0 next t → IsNotMissed from.0 result t }
{
    if start.0 < from.0 {
        return next;
    }
    match next {
        None => Some(start),
        Some(t) => { if start.0 < t.0 { Some(start) } else { Some(t) } }
    }
}

/// The earliest one of the next start so far and those of an allocation's symbols, where these are not before a tick.
fn nearest(next: Option<Ticks>, from: Ticks, a: &Allocation) -> Option<Ticks>
    requires next { IfSome next (λ t. from.0 ≤ℤ t.0) }
    requires starts { HasStarts a.now }
    ensures low { IfSome result (λ t. from.0 ≤ℤ t.0) }
    ensures starts { OfEachSymbol (IsNotMissed from.0 result) a.now.down a.now }
    ensures others { (t : ℤ) → IsNotMissed from.0 next t → IsNotMissed from.0 result t }
{
    let mut nearest = next;
    for symbol in a.symbol..a.symbol + a.num_symbol {
        nearest = nearer(nearest, from, air(&a.endpoint.numerology, a.slot, symbol));
    }
    nearest
}

/// The same, where the allocation is of a direction.
fn nearest_of(next: Option<Ticks>, from: Ticks, down: bool, a: &Allocation) -> Option<Ticks>
    requires next { IfSome next (λ t. from.0 ≤ℤ t.0) }
    requires starts { HasStarts a.now }
    ensures low { IfSome result (λ t. from.0 ≤ℤ t.0) }
    ensures starts { OfEachSymbol (IsNotMissed from.0 result) down a.now }
    ensures others { (t : ℤ) → IsNotMissed from.0 next t → IsNotMissed from.0 result t }
{
    if a.down != down {
        return next;
    }
    nearest(next, from, a)
}

/// The least start of a symbol of these allocations in one direction, downlink where `down`, that is not before a tick. None
/// where no symbol starts then or later.
pub(crate) fn next_start(accepted: &[Allocation], down: bool, from: Ticks) -> Option<Ticks>
    requires { All HasStarts accepted.now }
    ensures low { IfSome result (λ t. from.0 ≤ℤ t.0) }
    ensures first { All (OfEachSymbol (IsNotMissed from.0 result) down) accepted.now }
{
    let mut next = None;
    for a in accepted {
        next = nearest_of(next, from, down, a);
    }
    next
}

/// The least such start that is before another tick.
pub(crate) fn next_before(
    accepted: &[Allocation],
    down: bool,
    from: Ticks,
    end: Ticks,
) -> Option<Ticks>
    requires { All HasStarts accepted.now }
    ensures inside { IfSome result (λ t. (from.0 ≤ℤ t.0) × (t.0 <ℤ end.0)) }
    ensures first { MatchOption result (All (IsQuiet from.0 end.0 down) accepted.now) (λ t. All (IsQuiet from.0 t.0 down) accepted.now) }
{
    let next = next_start(accepted, down, from)?;
    if next.0 < end.0 { Some(next) } else { None }
}
