// What is done to the ring of one endpoint.
ghost use Rattle.std.specs.Prelude.{◌≡◌, ◌+◌, ◌<◌, ◌≤◌, [], ◌∷◌, length, true, IfOk};
ghost use Rattle.bfp_codec.specs.Layout.{HasWidth};
ghost use Rattle.fh_base.specs.Numbering.{symbols_of};
ghost use Rattle.unit_model.specs.Proper.{IsSlot};
ghost use Rattle.window_config.specs.Limits.{IsReach, IsWithinLimits};
ghost use Rattle.unit_model.specs.Sides.{reach_of};
ghost use Rattle.slot_rings.specs.Rings.{IsEmpty, has_slot, ring_claim, ring_uplink};
ghost use Rattle.slot_rings.specs.Runs.{packed_samples};
ghost use Rattle.slot_rings.specs.Verdicts.{verdict_by};
ghost use Rattle.unit_cells.specs.Cells.{HoldsLive};
ghost use Rattle.unit_cells.specs.Steps.{Claims, Takes, Fills, SetsReported};
ghost use Rattle.fh_base.specs.declared.carrier.TheConstants.{CARRIER_PRBS};

use air_source::Side;
use fh_base::{NoMemory, Slot};
use slot_rings::{PackedRun, SlotRing};
use std::alloc::Global;
use unit_model::{Allocation, Block, CommandVerdict};
use window_config::{Delays, EndpointConfig, Reach, du_reach, ring_slots, ru_reach};

/// How far from a symbol's start the messages of a unit may lie.
fn reach(side: Side, delays: &Delays) -> Reach
    requires { IsWithinLimits delays.now }
    ensures value { result ≡ reach_of side delays.now }
    ensures reach { IsReach result }
{
    match side {
        Side::Ru => ru_reach(delays),
        Side::Du => du_reach(delays),
    }
}

/// The ring of one endpoint, with a place for each slot that may be live at one time.
pub(crate) fn make_ring(
    alloc: Global,
    side: Side,
    delays: &Delays,
    endpoint: EndpointConfig,
) -> Result<SlotRing, NoMemory>
    requires limits { IsWithinLimits delays.now }
    requires some { 1 ≤ endpoint.prbs }
    requires few { endpoint.prbs ≤ CARRIER_PRBS }
    ensures endpoint { IfOk result (λ r. r.endpoint ≡ endpoint) }
    ensures wide { IfOk result (λ r. HoldsLive side delays.now r) }
    ensures empty { IfOk result (λ r. IsEmpty r) }
{
    let reach = reach(side, delays);
    let slots = ring_slots(&endpoint.numerology, reach.before, reach.after);
    SlotRing::make(alloc, endpoint, slots)
}

/// Claims what an allocation names, where it was accepted.
fn claim(ring: &mut SlotRing, a: &Allocation, verdict: CommandVerdict)
    requires endpoint { a.now.endpoint ≡ ring.old.endpoint }
    requires slot { IsSlot ring.old.endpoint.numerology a.now.slot }
    requires within { a.now.symbol + a.now.num_symbol ≤ symbols_of ring.old.endpoint.numerology }
    requires has { has_slot ring.old a.now.slot ≡ true }
    requires judged { verdict ≡ verdict_by (ring_claim ring.old) (length (ring_uplink ring.old a.now.slot)) a.now }
    ensures { Claims a.now verdict ring.old ring.new }
{
    if let CommandVerdict::Accepted = verdict {
        ring.claim(a);
    }
}

/// Judges an allocation that is on time, and claims what it names where it is accepted.
pub(crate) fn take(ring: &mut SlotRing, a: &Allocation) -> CommandVerdict
    requires endpoint { a.now.endpoint ≡ ring.old.endpoint }
    requires slot { IsSlot ring.old.endpoint.numerology a.now.slot }
    requires within { a.now.symbol + a.now.num_symbol ≤ symbols_of ring.old.endpoint.numerology }
    ensures { Takes a.now result ring.old ring.new }
{
    ring.open(a.slot);
    let verdict = ring.judge(a);
    claim(ring, a, verdict);
    verdict
}

/// Gives a downlink cell its block, where it has none.
pub(crate) fn fill(ring: &mut SlotRing, slot: Slot, symbol: u8, prb: u16, block: Block)
    requires slot { IsSlot ring.old.endpoint.numerology slot }
    requires symbol { symbol < symbols_of ring.old.endpoint.numerology }
    requires prb { prb < ring.old.endpoint.prbs }
    ensures { Fills slot symbol prb block.id (block.samples ∷ []) ring.old ring.new }
{
    ring.open(slot);
    ring.fill(slot, symbol, prb, block);
}

/// Gives downlink cells of a symbol, from PRB `first` on, the samples of packed PRBs, each cell where it has no block.
pub(crate) fn fill_run(ring: &mut SlotRing, slot: Slot, symbol: u8, first: u16, run: &PackedRun<'_>)
    requires slot { IsSlot ring.old.endpoint.numerology slot }
    requires symbol { symbol < symbols_of ring.old.endpoint.numerology }
    requires prbs { first + run.now.count ≤ ring.old.endpoint.prbs }
    requires width { HasWidth run.now.method }
    ensures { Fills slot symbol first run.now.id (packed_samples run.now) ring.old ring.new }
{
    ring.open(slot);
    ring.fill_run(slot, symbol, first, run);
}

/// Sets as reported the downlink cells of a symbol that are in use at the first so many PRBs, in a slot that has its place.
pub(crate) fn set_used_reported(ring: &mut SlotRing, slot: Slot, symbol: u8, count: u16)
    requires slot { IsSlot ring.old.endpoint.numerology slot }
    requires symbol { symbol < symbols_of ring.old.endpoint.numerology }
    requires count { count ≤ ring.old.endpoint.prbs }
    requires has { has_slot ring.old slot ≡ true }
    ensures { SetsReported slot symbol count ring.old ring.new }
{
    ring.set_used_reported(slot, symbol, count);
}
