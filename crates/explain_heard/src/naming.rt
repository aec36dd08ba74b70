// The symbol that the header of a message of data names.
ghost use Rattle.std.specs.Prelude.{◌≡◌, ◌==◌, ◌≤◌, length};
ghost use Rattle.explain_model.specs.Sections.{symbol_named};
ghost use Rattle.explain_heard.specs.Named.{whole_named};
ghost use Rattle.unit_model.specs.Proper.{IsTime};
ghost use Rattle.uplane_sections.specs.Header.{payloadVersion};

use crate::heard::WholeHeard;
use fh_base::{Numerology, Slot, Ticks, resolve, shape};
use uplane_sections::read_head;

// Whether a header is of version 1.
#[tactic(auto, using(std::proofs::lemmas::Grind::common_steps, bfp_codec::proofs::Field::fields))]
fn is_version_one(start: [u8; 4]) -> bool
    ensures { result ≡ (payloadVersion start == 1) }
{
    (start[0] >> 4) & 7 == 1
}

/// The slot and the symbol that a header of data names at a time, where it is of version 1 and these are an endpoint's.
#[tactic(auto, unfolding(explain_model::specs::Sections::symbol_named))]
pub fn symbol_named(start: [u8; 4], n: &Numerology, at: Ticks) -> Option<(Slot, u8)>
    requires { IsTime at.0 }
    ensures { result ≡ symbol_named n.now start at.0 }
{
    let head = read_head(start);
    let shape = shape(n);
    if is_version_one(start)
        && head.subframe <= 9
        && head.slot < shape.slots
        && head.symbol < shape.symbols
    {
        let slot = Slot {
            frame: resolve(head.frame_id, at),
            subframe: head.subframe,
            slot: head.slot,
        };
        Some((slot, head.symbol))
    } else {
        None
    }
}

/// The slot and the symbol that the header of a whole message names.
pub(crate) fn whole_symbol(w: &WholeHeard) -> Option<(Slot, u8)>
    requires { IsTime w.now.last.0 }
    ensures { result ≡ whole_named w.now }
{
    if w.bytes < 4 {
        return None;
    }
    symbol_named(w.start, &w.endpoint.numerology, w.last)
}
