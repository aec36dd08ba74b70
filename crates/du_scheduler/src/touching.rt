//! Which slots the downlink lines of a plan touch.
ghost use Rattle.std.specs.Prelude.{◌≡◌};
ghost use Rattle.std.specs.List.{list_any};
ghost use Rattle.schedule_laws.specs.Touched.{is_touching};

use fh_base::Slot;
use plan_model::{PlannedLine, line_allocation};
use unit_model::same_slot;

/// Whether a line is for the downlink, and of this endpoint and slot.
fn is_touching(p: &PlannedLine, ep: usize, slot: Slot) -> bool
    ensures { result ≡ is_touching ep slot p.now }
{
    let a = line_allocation(p);
    a.ep == ep && a.down && same_slot(&a.slot, &slot)
}

/// Whether one of the lines is for the downlink, and of this endpoint and slot.
pub(crate) fn are_touching(lines: &[PlannedLine], ep: usize, slot: Slot) -> bool
    ensures { result ≡ list_any (is_touching ep slot) lines.now }
{
    lines.iter().any(|p| is_touching(p, ep, slot))
}
