// The summary of a document, written.
ghost use Rattle.std.specs.Prelude.{◌≡◌, [], OnErr, OnOk};
ghost use Rattle.std.specs.Io.KnownBytes.{append_known};
ghost use Rattle.fh_base.specs.Told.{WritesFront, WritesPart};
ghost use Rattle.document_traffic.specs.Sending.{sent_for};
ghost use Rattle.du_scheduler.specs.Plans.{HasToSend};
ghost use Rattle.fh_document.specs.Proper.{IsDocument};
ghost use Rattle.report_airs.specs.SumAirs.{sink_name, sink_of, owed_of, sums_of};
ghost use Rattle.report_airs.specs.States.{sum_start};
ghost use Rattle.fronthaul_replay.specs.Laws.{IsSound};
ghost use Rattle.fronthaul_replay.specs.Replay.{HasWriteCause};
ghost use Rattle.fronthaul_replay.specs.Reports.{summary_of};

use crate::replaying::replay_to;
use crate::report::TextFault;
use du_scheduler::Plan;
use fh_base::Sink;
use fh_document::Document;
use report_airs::{SumAir, Sums};
use std::alloc::Global;

/// Writes the summary of a document: a line for each run of cells in place of the cells' lines, then those of the delays and of the
/// counters that are not at 0, and `end`.
///
/// At Ok exactly the summary was appended to what `out` holds; after an error a front part of it was, and not all.
///
/// # Errors
///
/// [`TextFault::WriteFault`] where writing failed, exactly where the sink's count of faults rose. [`TextFault::NoMemory`] where
/// memory runs out, in the sink too.
pub fn summarize_document<K: Sink>(
    alloc: Global,
    document: &Document,
    plan: Plan,
    out: &mut K,
) -> Result<(), TextFault>
    requires document { IsDocument document.now }
    requires plan { HasToSend document.now.config document.now.plan (sent_for document.now) plan }
    ensures front { WritesFront (K.written out.old) (K.written out.new) (summary_of document.now) }
    ensures part { OnErr result (WritesPart (K.written out.old) (K.written out.new) (summary_of document.now)) }
    ensures done { OnOk result (K.written out.new ≡ append_known (K.written out.old) (summary_of document.now)) }
    ensures cause { HasWriteCause (K.faults out.old) (K.faults out.new) result }
    ensures sound { OnOk result (IsSound document.now) }
{
    let mut air = SumAir::over(Sums::make(alloc)?, out);
    let told = tell_all(alloc, document, plan, &mut air);
    let _sink = air.into_sink();
    told
}

/// Tells a fresh air the events of a document, and finishes it.
fn tell_all<K: Sink>(
    alloc: Global,
    document: &Document,
    plan: Plan,
    air: &mut SumAir<'_, K>,
) -> Result<(), TextFault>
    requires document { IsDocument document.now }
    requires plan { HasToSend document.now.config document.now.plan (sent_for document.now) plan }
    requires nothing { owed_of air.old ≡ [] }
    requires start { sums_of air.old ≡ sum_start }
    ensures reference { sink_name air.new ≡ sink_name air.old }
    ensures front { WritesFront (K.written (sink_of air.old)) (K.written (sink_of air.new)) (summary_of document.now) }
    ensures part { OnErr result (WritesPart (K.written (sink_of air.old)) (K.written (sink_of air.new)) (summary_of document.now)) }
    ensures done { OnOk result (K.written (sink_of air.new) ≡ append_known (K.written (sink_of air.old)) (summary_of document.now)) }
    ensures cause { HasWriteCause (K.faults (sink_of air.old)) (K.faults (sink_of air.new)) result }
    ensures sound { OnOk result (IsSound document.now) }
{
    replay_to(alloc, document, plan, air)?;
    air.finish().map_err(TextFault::from)
}
