// The slot that a section of data names, and when its symbol starts.
ghost use Rattle.std.specs.Prelude.{◌≡◌, pos, neg_ℤ, ◌^◌, ◌≤ℤ◌};
ghost use Rattle.unit_model.specs.Blocks.{data_slot, data_start};
ghost use Rattle.unit_model.specs.Proper.{IsSlot};
ghost use Rattle.unit_model.specs.Sound.{IsSoundData};

use fh_base::{Slot, Ticks, air, resolve};
use unit_model::UserSection;

/// The slot that data names, by the frame nearest to its last arrival.
#[tactic(auto, using(unit_model::proofs::SlotLemmas::slots))]
pub(crate) fn data_slot(d: &UserSection) -> Slot
    requires { IsSoundData d.now }
    ensures value { result ≡ data_slot d.now }
    ensures slot { IsSlot d.now.endpoint.numerology result }
{
    Slot {
        frame: resolve(d.head.frame_id, d.last),
        subframe: d.head.subframe,
        slot: d.head.slot,
    }
}

/// When the symbol of a section of data starts.
pub(crate) fn data_start(d: &UserSection) -> Ticks
    requires { IsSoundData d.now }
    ensures value { result.0 ≡ data_start d.now }
    ensures low { neg_ℤ (pos (2 ^ 56)) ≤ℤ result.0 }
    ensures high { result.0 ≤ℤ pos (2 ^ 56) }
{
    air(&d.endpoint.numerology, data_slot(d), d.section.symbol)
}
