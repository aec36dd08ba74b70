// `generate`: a document of its own.
ghost use Rattle.std.specs.Prelude.{◌≡◌, ◌≤◌};
ghost use Rattle.top_call.specs.Answers.{generated_document};
ghost use Rattle.top_call.specs.Run.{Performs};

use crate::endings::ending_of;
use crate::status::Status;
use fh_base::{NoMemory, Sink, write_all_to};
use fh_document::write;
use std::alloc::Global;

/// Writes the document that is generated of a seed and a number of slots. Nothing is read.
pub(crate) fn write_document<K: Sink>(alloc: Global, seed: u32, slots: u32, out: &mut K) -> Status
    requires low { 1 ≤ slots }
    requires high { slots ≤ 400 }
    ensures { Performs (generated_document seed slots) (K.written out.old) (K.written out.new) (K.faults out.old) (K.faults out.new) result }
{
    match write(alloc, seed, slots) {
        Ok(document) => ending_of(write_all_to(out, document.as_slice()), Status::Done),
        Err(NoMemory) => Status::NoMemory,
    }
}
