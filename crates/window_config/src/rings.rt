// Which slots a unit has to hold.
ghost use Rattle.std.specs.Prelude.{◌≡◌, ◌↔◌, ℕ, ℤ, pos, neg_ℤ, ◌^◌, ◌<◌, ◌≤◌, ◌≤ℤ◌, ◌<ℤ◌, ◌+ℤ◌, Bool, IsTrue};
ghost use Rattle.fh_base.specs.declared.numerology.Numerology.{Numerology};
ghost use Rattle.fh_base.specs.declared.values.Slot.{Slot};
ghost use Rattle.fh_base.specs.Air.{air_of, least_slot_of, span_of};
ghost use Rattle.fh_base.specs.Numbering.{slots_of, symbols_of, slot_number, IsSlotOf};
ghost use Rattle.window_config.specs.Limits.{IsBound, IsReach, IsWithinLimits};
ghost use Rattle.window_config.specs.Windows.{ticks_of_ns, data_window_of, command_window_of};
ghost use Rattle.window_config.specs.Classes.{class_of, class_up_of};
ghost use Rattle.window_config.specs.Rings.{ru_reach_of, du_reach_of, ring_slots_of, IsLive};

use crate::delays::Delays;
use crate::distances::is_longer;
use crate::verdicts::Class;
use crate::windows::{command_window, data_window};
use fh_base::{Numerology, Slot, Ticks, air, least_slot, of_ns, span};

/// How far from a symbol's start its messages and reports may lie, in nanoseconds.
#[derive(Clone, Copy, Debug, PartialEq, Eq)]
pub struct Reach {
    pub before: i64,
    pub after: i64,
}

/// The reach of the RU: the greatest maximum of its windows before a symbol, and the greatest Ta3 after it.
pub fn ru_reach(d: &Delays) -> Reach
    requires { IsWithinLimits d.now }
    ensures value { result ≡ ru_reach_of d.now }
    ensures reach { IsReach result }

    // What is on time at the clock, where its last part has just arrived, names a live slot.
    ensures data_live { (n : Numerology) (slot : Slot) (symbol : ℕ) (first clock : ℤ) → symbol < symbols_of n → first ≤ℤ clock
        → class_of first clock (air_of n slot symbol) (data_window_of d.now) ≡ Class.OnTime → IsLive n result.before result.after clock slot }
    ensures commands_live { (down : Bool) (n : Numerology) (slot : Slot) (symbol : ℕ) (first clock : ℤ) → symbol < symbols_of n → first ≤ℤ clock
        → class_of first clock (air_of n slot symbol) (command_window_of d.now down) ≡ Class.OnTime → IsLive n result.before result.after clock slot }
{
    let data = data_window(d).max;
    let down = command_window(d, true).max;
    let up = command_window(d, false).max;
    Reach {
        before: data.max(down).max(up),
        after: d.ta3.max,
    }
}

/// The reach of the DU: nothing before a symbol, and the greatest Ta4 after it.
pub fn du_reach(d: &Delays) -> Reach
    requires { IsWithinLimits d.now }
    ensures value { result ≡ du_reach_of d.now }
    ensures reach { IsReach result }

    // What is on time at the clock, where its last part has just arrived, names a live slot.
    ensures data_live { (n : Numerology) (slot : Slot) (symbol : ℕ) (first clock : ℤ) → symbol < symbols_of n → first ≤ℤ clock
        → class_up_of first clock (air_of n slot symbol) d.now.ta4 ≡ Class.OnTime → IsLive n result.before result.after clock slot }
{
    Reach {
        before: 0,
        after: d.ta4.max,
    }
}

// a time by which the last symbol of a slot has started
fn end_of(n: &Numerology, start: Ticks) -> Ticks
    requires low { neg_ℤ (pos (2 ^ 56)) ≤ℤ start.0 }
    requires high { start.0 ≤ℤ pos (2 ^ 56) }
    ensures value { result.0 ≡ start.0 +ℤ pos (span_of n.now) }
    ensures low { neg_ℤ (pos (2 ^ 56)) ≤ℤ result.0 }
    ensures high { result.0 ≤ℤ pos (2 ^ 57) }
{
    Ticks(start.0 + span(n).0)
}

/// Whether a slot is live at a clock: not before its first symbol may be spoken of, nor after its last one may.
pub fn is_live(n: &Numerology, reach: Reach, clock: Ticks, slot: Slot) -> bool
    requires reach { IsReach reach }
    requires clock_low { neg_ℤ (pos (2 ^ 56)) ≤ℤ clock.0 }
    requires clock_high { clock.0 ≤ℤ pos (2 ^ 56) }
    requires low { neg_ℤ (pos 1000000) ≤ℤ slot.frame }
    requires high { slot.frame ≤ℤ pos 1000000 }
    requires subframe { slot.subframe < 10 }
    requires slot { slot.slot < slots_of n.now }
    ensures { IsTrue result ↔ IsLive n.now reach.before reach.after clock.0 slot }
{
    let start = air(n, slot, 0);
    let end = end_of(n, start);
    !is_longer(clock, start, reach.before) && !is_longer(end, clock, reach.after)
}

// for how many ticks a slot is live
fn live_ticks(n: &Numerology, before: i64, after: i64) -> u64
    requires before { IsBound before }
    requires after { IsBound after }
    ensures value { pos result ≡ ticks_of_ns before +ℤ pos (span_of n.now) +ℤ ticks_of_ns after }
    ensures small { result < 82000000000 }
{
    let before = of_ns(before).0 as u64;
    let after = of_ns(after).0 as u64;
    before + span(n).0 as u64 + after
}

// the ticks of the shortest slot
fn least_ticks(n: &Numerology) -> u64
    ensures value { result ≡ least_slot_of n.now }
    ensures least { 95900000 ≤ result }
{
    least_slot(n).0 as u64
}

/// How many slots a unit holds for an endpoint, so that any two slots that are live at one time have two places, by their number
/// modulo this.
pub fn ring_slots(n: &Numerology, before: i64, after: i64) -> usize
    requires before { IsBound before }
    requires after { IsBound after }
    ensures value { pos result ≡ ring_slots_of n.now before after }
    ensures some { 0 < result }
    ensures few { result < 1024 }
    ensures apart { (clock : ℤ) (a b : Slot) → IsSlotOf n.now a → IsSlotOf n.now b → IsLive n.now before after clock a → IsLive n.now before after clock b
        → slot_number n.now b <ℤ (slot_number n.now a +ℤ pos result) }
{
    let most = live_ticks(n, before, after);
    let least = least_ticks(n);
    (most / least) as usize + 1
}
