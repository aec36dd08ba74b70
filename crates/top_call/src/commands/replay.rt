// `replay`: the report of a document.
ghost use Rattle.std.specs.Prelude.{◌≡◌};
ghost use Rattle.du_scheduler.specs.Plans.{HasToSend};
ghost use Rattle.fh_document.specs.Document.{document_of};
ghost use Rattle.fh_document.specs.Proper.{IsDocument};
ghost use Rattle.plan_model.specs.Lines.{planned};
ghost use Rattle.plan_model.specs.Sent.{sent};
ghost use Rattle.top_call.specs.Answers.{of_document, of_planned, replayed};
ghost use Rattle.top_call.specs.Run.{Performs};

use crate::endings::text_status;
use crate::planning::read_planned;
use crate::status::Status;
use du_scheduler::Plan;
use fh_base::Sink;
use fh_document::Document;
use fronthaul_replay::report_document;
use std::alloc::Global;

/// Reads a document and writes its report.
pub(crate) fn write_report<K: Sink>(alloc: Global, bytes: &[u8], out: &mut K) -> Status
    ensures { Performs (of_document (of_planned replayed) (document_of bytes.now)) (K.written out.old) (K.written out.new) (K.faults out.old) (K.faults out.new) result }
{
    match read_planned(alloc, bytes) {
        Ok((document, plan)) => put_report(alloc, &document, plan, out),
        Err(status) => status,
    }
}

/// Writes the report of a document with this plan.
fn put_report<K: Sink>(alloc: Global, document: &Document, plan: Plan, out: &mut K) -> Status
    requires document { IsDocument document.now }
    requires plan { HasToSend document.now.config document.now.plan (sent document.now.config (planned document.now.config.endpoints document.now.plan)) plan }
    ensures { Performs (replayed document.now) (K.written out.old) (K.written out.new) (K.faults out.old) (K.faults out.new) result }
{
    text_status(report_document(alloc, document, plan, out))
}
