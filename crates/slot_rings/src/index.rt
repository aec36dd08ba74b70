// The place of a slot.
ghost use Rattle.std.specs.Prelude.{◌≡◌, pos, neg_ℤ, ◌<◌, ◌≤ℤ◌, ◌+ℤ◌, ◌*ℤ◌};
ghost use Rattle.std.specs.Int.{int_rem_euclid, int_gap};
ghost use Rattle.fh_base.specs.Numbering.{slot_number};
ghost use Rattle.unit_model.specs.Proper.{IsSlot};

use fh_base::{Numerology, Slot, shape};

/// The number of a slot's subframe, 0 for the first of frame 0.
fn subframe_number(slot: Slot) -> i64
    requires low { neg_ℤ (pos 1000000) ≤ℤ slot.frame }
    requires high { slot.frame ≤ℤ pos 1000000 }
    requires subframe { slot.subframe < 10 }
    ensures value { result ≡ slot.frame *ℤ pos 10 +ℤ pos slot.subframe }
    ensures low { neg_ℤ (pos 10000000) ≤ℤ result }
    ensures high { result ≤ℤ pos 10000009 }
{
    slot.frame * 10 + i64::from(slot.subframe)
}

/// The number of a slot in the order of slots, 0 for the first of frame 0.
fn slot_number(n: &Numerology, slot: Slot) -> i64
    requires { IsSlot n.now slot }
    ensures { result ≡ slot_number n.now slot }
{
    subframe_number(slot) * i64::from(shape(n).slots) + i64::from(slot.slot)
}

/// The index of a slot's place among so many.
pub(crate) fn place_index(n: &Numerology, places: usize, slot: Slot) -> usize
    requires slot { IsSlot n.now slot }
    requires some { 0 < places }
    requires few { places < 1024 }
    ensures value { result ≡ int_gap (pos 0) (int_rem_euclid (slot_number n.now slot) (pos places)) }
    ensures within { result < places }
{
    slot_number(n, slot).rem_euclid(places as i64) as usize
}
