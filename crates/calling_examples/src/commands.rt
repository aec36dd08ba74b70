// A caller of cplane_sections.
ghost use Rattle.std.specs.Prelude.{◌≡◌, ◌<◌, IfOk, Ok};
ghost use Rattle.std.specs.Result.{result_err};
ghost use Rattle.cplane_sections.specs.Tests.{checked};

use cplane_sections::{CRefusal, check, sections};
use fh_base::Shape;

/// How many sections a C-plane message has: as many as its header says, and always at least one. An error exactly where
/// a test fails: the first of them and its place.
pub fn section_count(message: &[u8], shape: Shape) -> Result<usize, CRefusal>
    ensures refusal { result_err result ≡ result_err (checked shape message.now) }
    ensures count { IfOk (checked shape message.now) (λ head. result ≡ Ok head.count) }
    ensures some { IfOk result (λ count. 0 < count) }
{
    let head = check(message, shape)?;
    Ok(sections(message, &head).count())
}
