// The verdicts on sections of commands.
ghost use Rattle.std.specs.Prelude.{◌≡◌, ◌+◌, ◌≤◌, ◌==◌, ◌&&◌, List};
ghost use Rattle.fh_base.specs.Numbering.{symbols_of};
ghost use Rattle.fh_base.specs.Carrier.{is_outside};
ghost use Rattle.unit_model.specs.Terms.{IsWithinLimits, EndpointConfig};
ghost use Rattle.unit_model.specs.Claims.{same_slot};
ghost use Rattle.unit_model.specs.Commands.{is_uplink, uplink_in, is_full, timely_verdict, command_verdict, allocation_of};
ghost use Rattle.unit_model.specs.Proper.{IsProperCommand, IsProperAllocation};
ghost use Rattle.unit_model.specs.Sound.{IsSoundCommand};

use crate::claims::{overlaps, repeats};
use fh_base::Slot;
use unit_model::{
    Allocation, CommandVerdict, ControlSection, SLOT_SECTIONS, allocation_of, command_class,
    is_for, is_uplink, same_slot,
};
use window_config::{Class, Delays};

/// Whether an allocation is an uplink section of this endpoint and slot.
fn is_uplink_of(a: &Allocation, ep: usize, slot: &Slot) -> bool
    ensures { result ≡ (is_uplink a.now && ((a.now.ep == ep) && same_slot a.now.slot slot.now)) }
{
    is_uplink(a) && a.ep == ep && same_slot(&a.slot, slot)
}

/// How many of these are uplink sections of one endpoint and slot.
pub(crate) fn uplink_in(ep: usize, slot: &Slot, accepted: &[Allocation]) -> usize
    ensures { result ≡ uplink_in ep slot.now accepted.now }
{
    let mut count = 0;
    for a in accepted {
        if is_uplink_of(a, ep, slot) {
            count += 1;
        }
    }
    count
}

/// Whether an allocation is an uplink section whose slot holds as many as it takes.
pub(crate) fn is_full(accepted: &[Allocation], a: &Allocation) -> bool
    ensures { result ≡ is_full accepted.now a.now }
{
    is_uplink(a) && SLOT_SECTIONS <= uplink_in(a.ep, &a.slot, accepted)
}

/// Whether PRBs go past a carrier of so many.
fn is_outside(prbs: u16, start: u16, num: u8) -> bool
    ensures { result ≡ is_outside prbs start num }
{
    num != 0 && u32::from(prbs) < u32::from(start) + u32::from(num)
}

/// The verdict on an allocation that is on time.
fn timely_verdict(accepted: &[Allocation], a: &Allocation) -> CommandVerdict
    requires { a.now.symbol + a.now.num_symbol ≤ symbols_of a.now.endpoint.numerology }
    ensures { result ≡ timely_verdict accepted.now a.now }
{
    if is_outside(a.endpoint.prbs, a.start_prb, a.num_prb) {
        return CommandVerdict::Range;
    }
    if repeats(accepted, a) {
        return CommandVerdict::Repeat;
    }
    if overlaps(accepted, a) {
        return CommandVerdict::Overlap;
    }
    if is_full(accepted, a) {
        return CommandVerdict::Full;
    }
    CommandVerdict::Accepted
}

/// The verdict on a command, where these allocations were accepted, the newest first.
#[tactic(auto, using(unit_model::proofs::VerdictLemmas::accepted_proper), unfolding(unit_model::specs::Commands::command_verdict))]
pub(crate) fn command_verdict(
    delays: &Delays,
    accepted: &[Allocation],
    c: &ControlSection,
) -> CommandVerdict
    requires limits { IsWithinLimits delays.now }
    requires sound { IsSoundCommand c.now }
    ensures value { result ≡ command_verdict delays.now accepted.now c.now }
    ensures proper { (es : List EndpointConfig) → IsProperCommand es c.now → result ≡ CommandVerdict.Accepted → IsProperAllocation es (allocation_of c.now) }
{
    if !is_for(&c.head.body, &c.endpoint.numerology) {
        return CommandVerdict::Mismatch;
    }
    match command_class(delays, c) {
        Class::Late => CommandVerdict::Late,
        Class::Early => CommandVerdict::Early,
        Class::OnTime => timely_verdict(accepted, &allocation_of(c)),
    }
}
