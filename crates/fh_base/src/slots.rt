ghost use Rattle.std.specs.Prelude.{◌≡◌, ◌≢◌, ℕ, ℤ, pos, neg_ℤ, ◌+◌, ◌*◌, ◌^◌, ◌<◌, ◌≤◌, ◌≤ℤ◌, ◌+ℤ◌};
ghost use Rattle.fh_base.specs.declared.values.Slot.{Slot};
ghost use Rattle.fh_base.specs.Air.{air_of, least_slot_of, span_of, AreApart};
ghost use Rattle.fh_base.specs.Numbering.{slots_of, symbols_of, slot_number, IsSlotOf};

use crate::kind::Kind;
use crate::numerology::Numerology;
use crate::shapes::shape;
use crate::symbols::{EXTENDED, LONGER, SLOT_SYMBOLS, SYMBOL, prefixed};
use crate::values::{Slot, Ticks};

/// The length of the shortest slot in ticks: no two slots start closer to each other.
pub fn least_slot(n: &Numerology) -> Ticks
    ensures value { result.0 ≡ pos (least_slot_of n.now) }
    ensures least { 95900000 ≤ least_slot_of n.now }
    ensures most { least_slot_of n.now ≤ 1534400000 }
    ensures apart { (a b : Slot) → IsSlotOf n.now a → IsSlotOf n.now b → a ≢ b → AreApart (least_slot_of n.now) (air_of n.now a 0) (air_of n.now b 0) }
{
    match n.kind {
        Kind::Ordinary(spacing) | Kind::Offset { spacing, .. } => {
            Ticks(((SLOT_SYMBOLS as u64 * SYMBOL) >> spacing.exponent()) as i64)
        }
        Kind::Extended => Ticks((12 * EXTENDED) as i64),
    }
}

/// A time in ticks after the start of a slot's symbol 0 by which its last symbol has started.
pub fn span(n: &Numerology) -> Ticks
    ensures value { result.0 ≡ pos (span_of n.now) }
    ensures most { span_of n.now < 2 ^ 36 }
    ensures covers { (slot : Slot) (symbol : ℕ) → IsSlotOf n.now slot → symbol < symbols_of n.now → air_of n.now slot symbol ≤ℤ (air_of n.now slot 0 +ℤ pos (span_of n.now)) }
{
    let ticks = match n.kind {
        Kind::Ordinary(spacing) => ((13 * SYMBOL) >> spacing.exponent()) + 2 * LONGER,
        Kind::Offset {
            spacing,
            cp_length,
            ..
        } => 13 * prefixed(spacing, cp_length),
        Kind::Extended => 11 * EXTENDED,
    };
    Ticks(ticks as i64)
}

/// The next slot: of the same subframe, the next one, or the next frame.
pub fn slot_after(n: &Numerology, slot: Slot) -> Slot
    requires low { neg_ℤ (pos 1000000) ≤ℤ slot.frame }
    requires high { slot.frame ≤ℤ pos 1000000 }
    requires subframe { slot.subframe < 10 }
    requires slot { slot.slot < slots_of n.now }
    ensures is_slot { IsSlotOf n.now result }
    ensures next { slot_number n.now result ≡ slot_number n.now slot +ℤ pos 1 }
    ensures only { (other : Slot) → IsSlotOf n.now other → slot_number n.now other ≡ slot_number n.now slot +ℤ pos 1 → other ≡ result }
    ensures frame_low { slot.frame ≤ℤ result.frame }
    ensures frame_high { result.frame ≤ℤ (slot.frame +ℤ pos 1) }
    ensures later { (air_of n.now slot 0 +ℤ pos (least_slot_of n.now)) ≤ℤ air_of n.now result 0 }
{
    if slot.slot + 1 < shape(n).slots {
        Slot {
            slot: slot.slot + 1,
            ..slot
        }
    } else if slot.subframe < 9 {
        Slot {
            subframe: slot.subframe + 1,
            slot: 0,
            ..slot
        }
    } else {
        Slot {
            frame: slot.frame + 1,
            subframe: 0,
            slot: 0,
        }
    }
}
