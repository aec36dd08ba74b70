// The slot that a command names, and when its symbol starts.
ghost use Rattle.std.specs.Prelude.{◌≡◌, pos, neg_ℤ, ◌^◌, ◌≤ℤ◌};
ghost use Rattle.unit_model.specs.Claims.{same_slot};
ghost use Rattle.unit_model.specs.Commands.{command_slot, command_start, is_idle, allocation_of};
ghost use Rattle.unit_model.specs.Proper.{IsSlot};
ghost use Rattle.unit_model.specs.Sound.{IsSoundCommand};

use crate::allocations::Allocation;
use crate::decoded::ControlSection;
use cplane_sections::CBody;
use fh_base::{Slot, Ticks, air, resolve};

/// Whether two slots are the same one.
pub fn same_slot(a: &Slot, b: &Slot) -> bool
    ensures { result ≡ same_slot a.now b.now }
{
    a.frame == b.frame && a.subframe == b.subframe && a.slot == b.slot
}

/// The slot that a command names, by the frame nearest to its arrival.
#[tactic(auto, using(crate::proofs::SlotLemmas::slots))]
fn command_slot(c: &ControlSection) -> Slot
    requires { IsSoundCommand c.now }
    ensures value { result ≡ command_slot c.now }
    ensures slot { IsSlot c.now.endpoint.numerology result }
{
    Slot {
        frame: resolve(c.head.frame_id, c.at),
        subframe: c.head.subframe,
        slot: c.head.slot,
    }
}

/// When the symbol of a command's header starts.
pub(crate) fn command_start(c: &ControlSection) -> Ticks
    requires { IsSoundCommand c.now }
    ensures value { result.0 ≡ command_start c.now }
    ensures low { neg_ℤ (pos (2 ^ 56)) ≤ℤ result.0 }
    ensures high { result.0 ≤ℤ pos (2 ^ 56) }
{
    air(&c.endpoint.numerology, command_slot(c), c.head.start_symbol)
}

/// Whether a command is of section type 0.
fn is_idle(body: &CBody) -> bool
    ensures { result ≡ is_idle body.now }
{
    match body {
        CBody::Idle { .. } => true,
        CBody::Normal { .. } | CBody::Offset { .. } => false,
    }
}

/// What a command names: its frame is the one nearest to its arrival.
pub fn allocation_of(c: &ControlSection) -> Allocation
    requires { IsSoundCommand c.now }
    ensures value { result ≡ allocation_of c.now }
    ensures slot { IsSlot result.endpoint.numerology result.slot }
{
    Allocation {
        ep: c.ep,
        endpoint: c.endpoint,
        down: c.head.down,
        idle: is_idle(&c.head.body),
        slot: command_slot(c),
        symbol: c.section.symbol,
        num_symbol: c.section.num_symbol,
        start_prb: c.section.start_prb,
        num_prb: c.section.num_prb,
        mask: c.section.mask,
        section: c.section.id,
        filter: c.head.filter,
    }
}
