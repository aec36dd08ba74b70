// `shared`: what the radio units of a shared cell do with a document.
ghost use Rattle.std.specs.Prelude.{◌≡◌, ◌≤◌};
ghost use Rattle.fh_document.specs.Document.{document_of};
ghost use Rattle.fh_document.specs.Proper.{IsDocument};
ghost use Rattle.plan_model.specs.Valid.{IsValid};
ghost use Rattle.top_call.specs.Answers.{of_document, of_planned, shared};
ghost use Rattle.top_call.specs.Run.{Performs};

use crate::endings::share_status;
use crate::planning::read_planned;
use crate::status::Status;
use document_texts::share;
use du_scheduler::Plan;
use fh_base::Sink;
use fh_document::Document;
use std::alloc::Global;

/// Reads a document and writes what the units of a shared cell do with it.
pub(crate) fn write_shared<K: Sink>(
    alloc: Global,
    count: u8,
    step: u32,
    bytes: &[u8],
    out: &mut K,
) -> Status
    requires low { 2 ≤ count }
    requires high { count ≤ 8 }
    requires step { step ≤ 1000000 }
    ensures { Performs (of_document (of_planned (shared count step)) (document_of bytes.now)) (K.written out.old) (K.written out.new) (K.faults out.old) (K.faults out.new) result }
{
    match read_planned(alloc, bytes) {
        Ok((document, plan)) => put_shared(alloc, count, step, &document, plan, out),
        Err(status) => status,
    }
}

/// Writes what the units of a shared cell do with a document whose plan was tested, and is let go before a unit takes its own.
fn put_shared<K: Sink>(
    alloc: Global,
    count: u8,
    step: u32,
    document: &Document,
    plan: Plan,
    out: &mut K,
) -> Status
    requires document { IsDocument document.now }
    requires plan { IsValid document.now.config document.now.plan }
    requires low { 2 ≤ count }
    requires high { count ≤ 8 }
    requires step { step ≤ 1000000 }
    ensures { Performs (shared count step document.now) (K.written out.old) (K.written out.new) (K.faults out.old) (K.faults out.new) result }
{
    drop(plan);
    share_status(share(alloc, document, count, step, out))
}
