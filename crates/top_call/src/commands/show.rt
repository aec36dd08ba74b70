// `show`: the fields of a capture's frames.
ghost use Rattle.std.specs.Prelude.{◌≡◌};
ghost use Rattle.top_call.specs.Answers.{shown};
ghost use Rattle.top_call.specs.Endings.{shown_status};
ghost use Rattle.top_call.specs.Run.{Performs};

use crate::status::Status;
use capture_show::{ShowFault, show};
use fh_base::Sink;
use std::alloc::Global;

/// Writes the fields of a capture's frames, as lines of text, or where `json` as JSON.
pub(crate) fn show_capture<K: Sink>(alloc: Global, json: bool, bytes: &[u8], out: &mut K) -> Status
    ensures { Performs (shown json bytes.now) (K.written out.old) (K.written out.new) (K.faults out.old) (K.faults out.new) result }
{
    shown_status(show(alloc, bytes, json, out))
}

/// How a run ends that shows a capture.
fn shown_status(shown: Result<(), ShowFault>) -> Status
    ensures { result ≡ shown_status shown }
{
    match shown {
        Ok(()) => Status::Done,
        Err(ShowFault::BadCapture { place, why }) => Status::BadCapture { place, why },
        Err(ShowFault::WriteFault) => Status::WriteFault,
        Err(ShowFault::NoMemory) => Status::NoMemory,
    }
}
