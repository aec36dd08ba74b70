// What a section of data names, and whether it is on time.
ghost use Rattle.std.specs.Prelude.{◌≡◌, pos, neg_ℤ, ◌^◌, ◌≤ℤ◌, ℕ, ◌+◌, ◌<◌, ◌≤◌, []};
ghost use Rattle.window_config.specs.Limits.{IsWithinLimits};
ghost use Rattle.unit_model.specs.Blocks.{data_slot, data_start, data_class, first_data_prb, data_prb_count};
ghost use Rattle.unit_model.specs.Proper.{IsSlot};
ghost use Rattle.unit_model.specs.Headings.{IsSoundHeading, data_under};

use air_source::Side;
use fh_base::{Slot, Ticks, air, resolve};
use unit_model::DataHeading;
use window_config::{Class, Delays, class, class_up, data_window};

/// The PRB of the carrier that is number `k` of a section's, 0 for its first one.
#[tactic(auto, using(crate::proofs::SectionLemmas::prb_within, crate::proofs::SectionLemmas::prbs_within))]
pub(crate) fn prb_at(h: &DataHeading, k: u16) -> u16
    requires sound { IsSoundHeading h.now }
    requires within { k < data_prb_count (data_under h.now []) }
    ensures value { result ≡ first_data_prb (data_under h.now []) + k }
    ensures inside { result < h.now.endpoint.prbs }
    ensures rest { (n : ℕ) → k + n ≤ data_prb_count (data_under h.now []) → result + n ≤ h.now.endpoint.prbs }
{
    // the proof needs the range of this number
    let _carrier = h.endpoint.prbs;
    h.prbs().first + k
}

/// The slot that it names, by the frame nearest to its last arrival.
#[tactic(auto, using(unit_model::proofs::SlotLemmas::slots))]
pub(crate) fn data_slot(h: &DataHeading) -> Slot
    requires { IsSoundHeading h.now }
    ensures value { result ≡ data_slot (data_under h.now []) }
    ensures slot { IsSlot h.now.endpoint.numerology result }
{
    Slot {
        frame: resolve(h.head.frame_id, h.last),
        subframe: h.head.subframe,
        slot: h.head.slot,
    }
}

/// When its symbol starts.
fn data_start(h: &DataHeading) -> Ticks
    requires { IsSoundHeading h.now }
    ensures value { result.0 ≡ data_start (data_under h.now []) }
    ensures low { neg_ℤ (pos (2 ^ 56)) ≤ℤ result.0 }
    ensures high { result.0 ≤ℤ pos (2 ^ 56) }
{
    air(&h.endpoint.numerology, data_slot(h), h.section.symbol)
}

/// Whether it is on time at the unit, by its own symbol.
pub(crate) fn data_class(side: Side, delays: &Delays, h: &DataHeading) -> Class
    requires limits { IsWithinLimits delays.now }
    requires sound { IsSoundHeading h.now }
    ensures { result ≡ data_class side delays.now (data_under h.now []) }
{
    let start = data_start(h);
    match side {
        Side::Ru => class(h.first, h.last, start, data_window(delays)),
        Side::Du => class_up(h.first, h.last, start, delays.ta4),
    }
}
