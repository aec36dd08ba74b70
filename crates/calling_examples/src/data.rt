// A caller of uplane_messages.
ghost use Rattle.std.specs.Prelude.{◌≡◌, Contains, IfOk, List, MatchOption};
ghost use Rattle.std.specs.Result.{result_err};
ghost use Rattle.bfp_codec.specs.Layout.{HasWidth};
ghost use Rattle.bfp_codec.specs.declared.samples.Wide.{Wide as SpecWide};
ghost use Rattle.uplane_messages.specs.Joined.{message_bytes};
ghost use Rattle.uplane_sections.specs.Messages.{Block, told};

use bfp_codec::{Format, Wide};
use ecpri_fragments::Lease;
use fh_base::Shape;
use uplane_messages::{DataWalk, tested};
use uplane_sections::{UFeed, URefusal};

/// The samples of a PRB in a complete U-plane message, None exactly where it has no such PRB, and an error exactly
/// where the message is refused.
pub fn samples_of(
    lease: &Lease<'_>,
    format: Format,
    prbs: u16,
    shape: Shape,
    wanted: u16,
) -> Result<Option<[Wide; 12]>, URefusal>
    requires { HasWidth format.method }
    ensures refusal { result_err result ≡ (told format prbs shape (message_bytes lease.now)).refusal }
    ensures block { IfOk result (λ found. let items = (told format prbs shape (message_bytes lease.now)).items in
        MatchOption found ((samples : List SpecWide) → Contains items (Block wanted samples) → ⊥) (λ samples. Contains items (Block wanted samples))) }
{
    tested(lease, format, prbs, shape)?;
    for item in DataWalk::new(lease, format, prbs, shape) {
        if let UFeed::Block { prb, samples } = item {
            if prb == wanted {
                return Ok(Some(samples));
            }
        }
    }
    Ok(None)
}
