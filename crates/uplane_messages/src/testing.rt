//! The test of a message to its end.
ghost use Rattle.std.specs.Prelude.{◌≡◌, IfOk};
ghost use Rattle.std.specs.Result.{result_err};
ghost use Rattle.bfp_codec.specs.Layout.{HasWidth};
ghost use Rattle.uplane_sections.specs.Messages.{told};
ghost use Rattle.uplane_messages.specs.Joined.{message_bytes};
ghost use Rattle.uplane_messages.specs.Whole.{IsWhole};

use crate::walk::DataWalk;
use bfp_codec::Format;
use ecpri_fragments::Lease;
use fh_base::Shape;
use uplane_sections::{UFeed, UHead, URefusal};

/// The header of a message that no test refuses, from its first byte to its last, and else its
/// refusal. The arguments are those of [`DataWalk::new`].
pub fn tested(lease: &Lease<'_>, format: Format, prbs: u16, shape: Shape) -> Result<UHead, URefusal>
    requires { HasWidth format.method }
    ensures refusal { result_err result ≡ (told format prbs shape (message_bytes lease.now)).refusal }
    ensures whole { IfOk result (λ head. IsWhole prbs shape head (told format prbs shape (message_bytes lease.now)).items) }
{
    let mut walk = DataWalk::new(lease, format, prbs, shape);
    let first = walk.next();
    if let Some(refusal) = walk.refusal() {
        return Err(refusal);
    }
    match first {
        Some(UFeed::Head(head)) => Ok(head),
        _ => unreachable!(),
    }
}
