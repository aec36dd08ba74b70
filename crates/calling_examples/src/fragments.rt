// A caller of ecpri_fragments.
ghost use Rattle.std.specs.Prelude.{◌≡◌, ◌≢◌, ◌<◌, ◌^◌, ◌≤ℤ◌, List, ◌∷◌, MatchOption, length, neg_ℤ, pos};
ghost use Rattle.ecpri_fragments.specs.declared.verdict.Verdict.TheVariants.{Whole};
ghost use Rattle.ecpri_fragments.specs.Assemblies.{StandsFor, Took, endpoints_of, hold_of};
ghost use Rattle.ecpri_fragments.specs.Generations.{Fragment, fragment};
ghost use Rattle.ecpri_fragments.specs.Sequence.{seq_field_of};
ghost use Rattle.ecpri_fragments.specs.Verdicts.{message, standing_before, verdict_on};

use ecpri_fragments::{Assembly, Taken, read_seq};
use fh_base::Ticks;

/// Takes a fragment of an endpoint, with the two bytes of its sequence field. Where it completes its message, in how
/// many fragments the message was received; None exactly where it completes none.
pub fn completed(
    assembly: &mut Assembly,
    endpoint: usize,
    at: Ticks,
    field: [u8; 2],
    bytes: &[u8],
) -> Option<usize>
    requires endpoint { endpoint < endpoints_of assembly.old }
    requires low { neg_ℤ (pos (2 ^ 56)) ≤ℤ at.0 }
    requires high { at.0 ≤ℤ pos (2 ^ 56) }
    ensures took { Took assembly.old assembly.new (fragment endpoint at (seq_field_of field) bytes.now) }
    ensures count { (earlier : List Fragment) → StandsFor assembly.old earlier → let f = fragment endpoint at (seq_field_of field) bytes.now in
        MatchOption result (verdict_on (hold_of assembly.old) f earlier ≢ Whole)
        (λ count. count ≡ length (message (f ∷ standing_before (hold_of assembly.old) f earlier)).pieces) }
{
    match assembly.take(endpoint, at, read_seq(field), bytes) {
        Taken::Whole(lease) => Some(lease.count()),
        _ => None,
    }
}
