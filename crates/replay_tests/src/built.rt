// What the tests build: frames of one byte.
ghost use Rattle.std.specs.Prelude.{◌≡◌, [], ◌∷◌, IfOk};

use fh_base::{Bytes, NoMemory};
use std::alloc::Global;

/// A frame of this one byte.
pub(crate) fn marked(alloc: Global, mark: u8) -> Result<Bytes, NoMemory>
    ensures { IfOk result (λ frame. frame ≡ mark ∷ []) }
{
    let mut frame = Bytes::new(alloc);
    frame.push_all(&[mark])?;
    Ok(frame)
}

/// The one byte of a frame, or 255 where it has none or more.
pub(crate) fn mark_of(frame: &[u8]) -> u8 {
    match frame {
        [mark] => *mark,
        _ => 255,
    }
}
