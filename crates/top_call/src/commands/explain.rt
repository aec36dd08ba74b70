// `explain`: what became of a document's frames and sections, and why cells are silent.
ghost use Rattle.std.specs.Prelude.{◌≡◌, IfOk};
ghost use Rattle.document_traffic.specs.Sending.{sent_for};
ghost use Rattle.du_scheduler.specs.Plans.{HasToSend};
ghost use Rattle.document_texts.specs.Text.{HasFewFrames};
ghost use Rattle.fh_document.specs.Document.{document_of};
ghost use Rattle.fh_document.specs.Proper.{IsDocument};
ghost use Rattle.top_call.specs.Answers.{explained, of_document, of_planned};
ghost use Rattle.top_call.specs.Run.{Performs};
ghost use Rattle.top_call.specs.declared.status.Status.TheVariants.{Done};

use crate::endings::text_status;
use crate::planning::read_planned;
use crate::status::Status;
use document_texts::explain;
use du_scheduler::Plan;
use fh_base::Sink;
use fh_document::Document;
use std::alloc::Global;

/// Reads a document and explains it: all of it, or its faults alone.
pub(crate) fn write_explanation<K: Sink>(
    alloc: Global,
    faults: bool,
    bytes: &[u8],
    out: &mut K,
) -> Status
    ensures does { Performs (of_document (of_planned (explained faults)) (document_of bytes.now)) (K.written out.old) (K.written out.new) (K.faults out.old) (K.faults out.new) result }
    ensures few { result ≡ Done → IfOk (document_of bytes.now) HasFewFrames }
{
    match read_planned(alloc, bytes) {
        Ok((document, plan)) => put_explanation(alloc, faults, &document, plan, out),
        Err(status) => status,
    }
}

/// Explains a document with this plan.
fn put_explanation<K: Sink>(
    alloc: Global,
    faults: bool,
    document: &Document,
    plan: Plan,
    out: &mut K,
) -> Status
    requires document { IsDocument document.now }
    requires plan { HasToSend document.now.config document.now.plan (sent_for document.now) plan }
    ensures does { Performs (explained faults document.now) (K.written out.old) (K.written out.new) (K.faults out.old) (K.faults out.new) result }
    ensures few { result ≡ Done → HasFewFrames document.now }
{
    text_status(explain(alloc, document, plan, faults, out))
}
