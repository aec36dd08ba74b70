// `idle`: when the endpoints of a document are idle.
ghost use Rattle.std.specs.Prelude.{◌≡◌, ◌≤◌};
ghost use Rattle.document_traffic.specs.Sending.{sent_for};
ghost use Rattle.du_scheduler.specs.Plans.{HasToSend};
ghost use Rattle.fh_document.specs.Document.{document_of};
ghost use Rattle.fh_document.specs.Proper.{IsDocument};
ghost use Rattle.idle_spans.specs.Tables.{AreFrames};
ghost use Rattle.top_call.specs.Answers.{idled, of_document, of_planned};
ghost use Rattle.top_call.specs.Run.{Performs};

use crate::endings::text_status;
use crate::planning::read_planned;
use crate::status::Status;
use document_texts::write_idle;
use du_scheduler::Plan;
use fh_base::Sink;
use fh_document::Document;
use std::alloc::Global;

/// Reads a document and writes when its endpoints are idle.
pub(crate) fn write_idle_spans<K: Sink>(
    alloc: Global,
    first: u32,
    last: u32,
    min: u32,
    bytes: &[u8],
    out: &mut K,
) -> Status
    requires frames { AreFrames first last }
    requires min { 1 ≤ min }
    ensures { Performs (of_document (of_planned (idled first last min)) (document_of bytes.now)) (K.written out.old) (K.written out.new) (K.faults out.old) (K.faults out.new) result }
{
    match read_planned(alloc, bytes) {
        Ok((document, plan)) => put_idle(alloc, first, last, min, &document, plan, out),
        Err(status) => status,
    }
}

/// Writes when the endpoints of a document with this plan are idle.
fn put_idle<K: Sink>(
    alloc: Global,
    first: u32,
    last: u32,
    min: u32,
    document: &Document,
    plan: Plan,
    out: &mut K,
) -> Status
    requires document { IsDocument document.now }
    requires plan { HasToSend document.now.config document.now.plan (sent_for document.now) plan }
    requires frames { AreFrames first last }
    requires min { 1 ≤ min }
    ensures { Performs (idled first last min document.now) (K.written out.old) (K.written out.new) (K.faults out.old) (K.faults out.new) result }
{
    text_status(write_idle(alloc, document, plan, first, last, min, out))
}
