//! One byte of a header or of padding.
ghost use Rattle.std.specs.Prelude.{◌≡◌, ◌+◌, ◌<◌, ◌≤◌, ◌==◌, [], ◌∷◌, true};
ghost use Rattle.ecpri_frames.specs.Headers.{revision};
ghost use Rattle.ecpri_frames.specs.Phases.{awaited, begun};
ghost use Rattle.ecpri_frames.specs.Turns.{is_outside, turn_phase, turn_told, StaysOutside, Leads};

use crate::heads::{Head, read_head};
use crate::phases::{Phase, behind_head};

/// What a byte leads to.
pub(crate) enum Turn {
    /// Onward, with nothing to tell.
    On(Phase),
    /// Behind a header.
    Told(Phase, Head),
    /// To a refusal, as a header begins with another revision.
    Bad,
}

/// Whether a header may begin with this byte: its revision is 1.
#[tactic(auto, using(std::proofs::lemmas::Grind::common_steps, bfp_codec::proofs::Field::fields))]
fn is_first(byte: u8) -> bool
    ensures { result ≡ (revision (byte ∷ []) == 1) }
{
    byte >> 4 == 1
}

/// What the byte at `place` leads to, in a header or in padding.
pub(crate) fn turn_at(phase: Phase, place: usize, byte: u8) -> Turn
    requires outside { is_outside phase ≡ true }
    requires waits { 0 < awaited phase }
    requires behind { begun phase ≤ place }
    ensures leads { Leads phase place (byte ∷ []) (turn_told result (place + 1))
        (turn_phase result place) (place + 1) }
    ensures outside { StaysOutside result (place + 1) }
    ensures waits { 0 < awaited (turn_phase result place) }
    ensures behind { begun (turn_phase result place) ≤ place + 1 }
{
    match phase {
        Phase::First => {
            if is_first(byte) {
                Turn::On(Phase::Second(byte))
            } else {
                Turn::Bad
            }
        }
        Phase::Second(a) => Turn::On(Phase::Third(a, byte)),
        Phase::Third(a, b) => Turn::On(Phase::Fourth(a, b, byte)),
        Phase::Fourth(a, b, c) => {
            let head = read_head([a, b, c, byte]);
            Turn::Told(behind_head(head), head)
        }
        Phase::Padding(left) => {
            if left == 1 {
                Turn::On(Phase::First)
            } else {
                Turn::On(Phase::Padding(left - 1))
            }
        }
        _ => unreachable!(),
    }
}
