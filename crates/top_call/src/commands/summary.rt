// `summary`: a line for each run of a document's cells, the delays and the counters.
ghost use Rattle.std.specs.Prelude.{◌≡◌};
ghost use Rattle.du_scheduler.specs.Plans.{HasToSend};
ghost use Rattle.fh_document.specs.Document.{document_of};
ghost use Rattle.fh_document.specs.Proper.{IsDocument};
ghost use Rattle.plan_model.specs.Lines.{planned};
ghost use Rattle.plan_model.specs.Sent.{sent};
ghost use Rattle.top_call.specs.Answers.{of_document, of_planned, summarized};
ghost use Rattle.top_call.specs.Run.{Performs};

use crate::endings::text_status;
use crate::planning::read_planned;
use crate::status::Status;
use du_scheduler::Plan;
use fh_base::Sink;
use fh_document::Document;
use fronthaul_replay::summarize_document;
use std::alloc::Global;

/// Reads a document and writes its summary.
pub(crate) fn write_summary<K: Sink>(alloc: Global, bytes: &[u8], out: &mut K) -> Status
    ensures { Performs (of_document (of_planned summarized) (document_of bytes.now)) (K.written out.old) (K.written out.new) (K.faults out.old) (K.faults out.new) result }
{
    match read_planned(alloc, bytes) {
        Ok((document, plan)) => put_summary(alloc, &document, plan, out),
        Err(status) => status,
    }
}

/// Writes the summary of a document with this plan.
fn put_summary<K: Sink>(alloc: Global, document: &Document, plan: Plan, out: &mut K) -> Status
    requires document { IsDocument document.now }
    requires plan { HasToSend document.now.config document.now.plan (sent document.now.config (planned document.now.config.endpoints document.now.plan)) plan }
    ensures { Performs (summarized document.now) (K.written out.old) (K.written out.new) (K.faults out.old) (K.faults out.new) result }
{
    text_status(summarize_document(alloc, document, plan, out))
}
