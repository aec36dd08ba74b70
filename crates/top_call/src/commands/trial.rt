// `trial`: the counters of a generated document's replay.
ghost use Rattle.std.specs.Prelude.{◌≡◌, ◌≤◌, Ok, IfOk};
ghost use Rattle.du_scheduler.specs.Plans.{HasToSend};
ghost use Rattle.fh_document.specs.Answered.{Answers};
ghost use Rattle.fh_document.specs.Proper.{IsDocument};
ghost use Rattle.plan_model.specs.Lines.{planned};
ghost use Rattle.plan_model.specs.Sent.{sent};
ghost use Rattle.generated_laws.specs.Documents.{document};
ghost use Rattle.top_call.specs.Answers.{counted, of_planned, tried};
ghost use Rattle.top_call.specs.Run.{Performs};

use crate::endings::{text_status, unplanned_status, unread_status};
use crate::status::Status;
use du_scheduler::Plan;
use fh_base::{NoMemory, Sink};
use fh_document::{DocFault, Document, read, write};
use fronthaul_replay::{check_plan, count_document};
use std::alloc::Global;

/// Replays the document that is generated of a seed and a number of slots, and writes the counters of both units. Nothing is read.
pub(crate) fn write_trial<K: Sink>(alloc: Global, seed: u32, slots: u32, out: &mut K) -> Status
    requires low { 1 ≤ slots }
    requires high { slots ≤ 400 }
    ensures { Performs (tried seed slots) (K.written out.old) (K.written out.new) (K.faults out.old) (K.faults out.new) result }
{
    match generated(alloc, seed, slots) {
        Ok(document) => count_planned(alloc, &document, out),
        Err(fault) => unread_status(fault),
    }
}

/// The document of a seed and a number of slots, as what is written of it is read.
fn generated(alloc: Global, seed: u32, slots: u32) -> Result<Document, DocFault>
    requires low { 1 ≤ slots }
    requires high { slots ≤ 400 }
    ensures answers { Answers (Ok (document seed slots)) result }
    ensures proper { IfOk result IsDocument }
{
    match write(alloc, seed, slots) {
        Ok(text) => read(alloc, text.as_slice()),
        Err(NoMemory) => Err(DocFault::NoMemory),
    }
}

/// Tests the plan of a document and writes the counters of its replay.
fn count_planned<K: Sink>(alloc: Global, document: &Document, out: &mut K) -> Status
    requires { IsDocument document.now }
    ensures { Performs (of_planned counted document.now) (K.written out.old) (K.written out.new) (K.faults out.old) (K.faults out.new) result }
{
    match check_plan(alloc, document) {
        Ok(plan) => put_counts(alloc, document, plan, out),
        Err(refusal) => unplanned_status(document, refusal),
    }
}

/// Writes the counters of the replay of a document with this plan.
fn put_counts<K: Sink>(alloc: Global, document: &Document, plan: Plan, out: &mut K) -> Status
    requires document { IsDocument document.now }
    requires plan { HasToSend document.now.config document.now.plan (sent document.now.config (planned document.now.config.endpoints document.now.plan)) plan }
    ensures { Performs (counted document.now) (K.written out.old) (K.written out.new) (K.faults out.old) (K.faults out.new) result }
{
    text_status(count_document(alloc, document, plan, out))
}
