// `sent`: the frames that a document's plan sends.
ghost use Rattle.std.specs.Prelude.{◌≡◌};
ghost use Rattle.document_traffic.specs.Sending.{sent_for};
ghost use Rattle.du_scheduler.specs.Plans.{HasToSend};
ghost use Rattle.fh_document.specs.Document.{document_of};
ghost use Rattle.fh_document.specs.Proper.{IsDocument};
ghost use Rattle.top_call.specs.Answers.{listed, of_document, of_planned};
ghost use Rattle.top_call.specs.Run.{Performs};

use crate::endings::ending_of;
use crate::planning::read_planned;
use crate::status::Status;
use document_texts::list_sent;
use du_scheduler::Plan;
use fh_base::Sink;
use fh_document::Document;
use std::alloc::Global;

/// Reads a document and lists the frames that its plan sends.
pub(crate) fn write_sent<K: Sink>(alloc: Global, bytes: &[u8], out: &mut K) -> Status
    ensures { Performs (of_document (of_planned listed) (document_of bytes.now)) (K.written out.old) (K.written out.new) (K.faults out.old) (K.faults out.new) result }
{
    match read_planned(alloc, bytes) {
        Ok((document, plan)) => put_sent(alloc, &document, plan, out),
        Err(status) => status,
    }
}

/// Lists the frames of a document with this plan.
fn put_sent<K: Sink>(alloc: Global, document: &Document, plan: Plan, out: &mut K) -> Status
    requires document { IsDocument document.now }
    requires plan { HasToSend document.now.config document.now.plan (sent_for document.now) plan }
    ensures { Performs (listed document.now) (K.written out.old) (K.written out.new) (K.faults out.old) (K.faults out.new) result }
{
    // (the list has a table of its own)
    drop(plan);
    ending_of(list_sent(alloc, document, out), Status::Done)
}
