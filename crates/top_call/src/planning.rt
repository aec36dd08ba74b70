// A document that is read, with its plan: the front of each command over one.
ghost use Rattle.std.specs.Prelude.{◌≡◌, ◌≢◌, ℕ, List as Items, Option as Told, Ok, IfOk, IfErr};
ghost use Rattle.document_traffic.specs.Sending.{sent_for};
ghost use Rattle.du_scheduler.specs.Plans.{HasToSend};
ghost use Rattle.fh_document.specs.Document.{document_of};
ghost use Rattle.fh_document.specs.Proper.{IsDocument};
ghost use Rattle.fh_document.specs.declared.document.Document.{Document as SpecDocument};
ghost use Rattle.top_call.specs.Answers.{Answer, of_document, of_planned};
ghost use Rattle.top_call.specs.Run.{Performs};
ghost use Rattle.top_call.specs.declared.status.Status.TheVariants.{Done};

use crate::endings::{unplanned_status, unread_status};
use crate::status::Status;
use du_scheduler::Plan;
use fh_document::{Document, read};
use fronthaul_replay::check_plan;
use std::alloc::Global;

/// Reads a document and tests its plan. Where either is refused, nothing was written: the status is that of any command over such a
/// document, and not `Done`.
pub(crate) fn read_planned(alloc: Global, bytes: &[u8]) -> Result<(Document, Plan), Status>
    ensures ok { IfOk result (λ p. IsDocument p.0 × ((document_of bytes.now ≡ Ok p.0) × HasToSend p.0.config p.0.plan (sent_for p.0) p.1)) }
    ensures err { IfErr result (λ s. (f : SpecDocument → Answer) (w : Told (Items ℕ)) (k : ℕ) → Performs (of_document (of_planned f) (document_of bytes.now)) w w k k s) }
    ensures undone { IfErr result (λ s. s ≢ Done) }
{
    match read(alloc, bytes) {
        Ok(document) => match check_plan(alloc, &document) {
            Ok(plan) => Ok((document, plan)),
            Err(refusal) => Err(unplanned_status(&document, refusal)),
        },
        Err(fault) => Err(unread_status(fault)),
    }
}
