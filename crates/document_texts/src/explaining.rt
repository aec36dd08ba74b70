// The explanation of a document, written.
ghost use Rattle.std.specs.Prelude.{◌≡◌, ◌<◌, [], length, slice_get, IfOk, OnErr, OnOk, Some};
ghost use Rattle.std.specs.Io.KnownBytes.{append_known};
ghost use Rattle.document_traffic.specs.Sending.{sent_for};
ghost use Rattle.du_scheduler.specs.Plans.{HasToSend};
ghost use Rattle.explain_air.specs.Airs.{owed_of, sink_name, sink_of};
ghost use Rattle.explain_air.specs.Heard.{HasHeard};
ghost use Rattle.document_texts.specs.Explained.{IsExplainedDocument};
ghost use Rattle.document_texts.specs.Text.{HasFewFrames, IsFresh, explanation, subject_of};
ghost use Rattle.fh_base.specs.Told.{WritesFront, WritesPart};
ghost use Rattle.fh_document.specs.Proper.{IsDocument};
ghost use Rattle.fronthaul_replay.specs.Laws.{IsSound};
ghost use Rattle.fronthaul_replay.specs.Replay.{HasWriteCause};
ghost use Rattle.plan_model.specs.Lines.{planned};
ghost use Rattle.why_lines.specs.Silent.{IsSilentLine};
ghost use Rattle.std.specs.List.{AllByRecursion};

use du_scheduler::{Plan, planned_lines};
use explain_air::{ExplainAir, Kept, PlanLines};
use fh_base::{List, NoMemory, Sink};
use fh_document::Document;
use fronthaul_replay::{TextFault, replay_listening_to};
use std::alloc::Global;

/// Writes the explanation of a document, or the text of its faults alone.
///
/// At Ok exactly that text was appended to what `out` holds; after an error a front part of it was, and not all.
///
/// # Errors
///
/// [`TextFault::WriteFault`] where writing failed, exactly where the sink's count of faults rose. [`TextFault::NoMemory`] where
/// memory runs out, in the sink too, and where 2 ^ 32 frames or more arrive.
pub fn explain<K: Sink>(
    alloc: Global,
    document: &Document,
    plan: Plan,
    faults: bool,
    out: &mut K,
) -> Result<(), TextFault>
    requires document { IsDocument document.now }
    requires plan { HasToSend document.now.config document.now.plan (sent_for document.now) plan }
    ensures front { WritesFront (K.written out.old) (K.written out.new) (explanation faults document.now) }
    ensures part { OnErr result (WritesPart (K.written out.old) (K.written out.new) (explanation faults document.now)) }
    ensures done { OnOk result (K.written out.new ≡ append_known (K.written out.old) (explanation faults document.now)) }
    ensures cause { HasWriteCause (K.faults out.old) (K.faults out.new) result }
    ensures sound { OnOk result (IsSound document.now) }
    ensures explained { OnOk result (IsExplainedDocument document.now) }
    // So each number of a frame in the text has 32 bits.
    ensures few { OnOk result (HasFewFrames document.now) }
{
    let kept = kept_for(alloc, document)?;
    let mut air = ExplainAir::over(alloc, kept, faults, out);
    let told = tell_all(alloc, document, plan, &mut air);
    let _sink = air.into_sink();
    told
}

/// One of a list's numbers.
fn number_at(numbers: &List<usize>, k: usize) -> u64
    requires { k < length numbers.now }
    ensures { slice_get numbers.now k ≡ Some result }
{
    match numbers.get(k) {
        Some(number) => *number as u64,
        None => unreachable!(),
    }
}

/// The numbers of the plan's lines in a document.
fn numbers_of(alloc: Global, document: &Document) -> Result<Vec<u64>, NoMemory>
    ensures { IfOk result (λ v. v.items ≡ document.now.plan_lines) }
{
    let mut numbers = Vec::with_capacity(alloc, document.plan_lines.len())?;
    for k in 0..document.plan_lines.len() {
        numbers.push(number_at(&document.plan_lines, k))?;
    }
    Ok(numbers)
}

/// What is kept of a document before any event.
fn kept_for(alloc: Global, document: &Document) -> Result<Kept, NoMemory>
    requires document { IsDocument document.now }
    requires lines { AllByRecursion IsSilentLine (planned document.now.config.endpoints document.now.plan) }
    ensures { IfOk result (λ k. HasHeard (subject_of document.now) [] k) }
{
    let endpoints = document.config.endpoints.as_slice();
    let planned = planned_lines(alloc, endpoints, &document.plan)?;
    let numbers = numbers_of(alloc, document)?;
    Kept::make(alloc, &document.config, PlanLines::of(planned, numbers))
}

/// Tells a fresh air the events of a document, and finishes it.
fn tell_all<K: Sink>(
    alloc: Global,
    document: &Document,
    plan: Plan,
    air: &mut ExplainAir<'_, K>,
) -> Result<(), TextFault>
    requires document { IsDocument document.now }
    requires plan { HasToSend document.now.config document.now.plan (sent_for document.now) plan }
    requires nothing { owed_of air.old ≡ [] }
    requires fresh { IsFresh (subject_of document.now) air.old.kept }
    ensures reference { sink_name air.new ≡ sink_name air.old }
    ensures part { OnErr result (WritesPart (K.written (sink_of air.old)) (K.written (sink_of air.new)) (explanation air.old.faults document.now)) }
    ensures done { OnOk result (K.written (sink_of air.new) ≡ append_known (K.written (sink_of air.old)) (explanation air.old.faults document.now)) }
    ensures cause { HasWriteCause (K.faults (sink_of air.old)) (K.faults (sink_of air.new)) result }
    ensures sound { OnOk result (IsSound document.now) }
    ensures few { OnOk result (HasFewFrames document.now) }
{
    air.begin(&document.config)?;
    replay_listening_to(alloc, document, plan, air)?;
    air.finish().map_err(TextFault::from)
}
