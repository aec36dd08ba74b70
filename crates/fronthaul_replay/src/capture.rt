// The capture of a document, written.
ghost use Rattle.std.specs.Prelude.{◌≡◌, OnErr, OnOk};
ghost use Rattle.std.specs.Io.KnownBytes.{append_known};
ghost use Rattle.fh_base.specs.Told.{WritesFront, WritesPart};
ghost use Rattle.document_traffic.specs.Sending.{sent_for};
ghost use Rattle.du_scheduler.specs.Plans.{HasToSend};
ghost use Rattle.fh_document.specs.Proper.{IsDocument};
ghost use Rattle.fronthaul_replay.specs.Laws.{IsSound};
ghost use Rattle.fronthaul_replay.specs.Replay.{HasWriteCause};
ghost use Rattle.fronthaul_replay.specs.Reports.{capture_of};

use crate::replaying::replay_to;
use crate::report::TextFault;
use du_scheduler::Plan;
use fh_base::Sink;
use fh_document::Document;
use report_airs::CaptureAir;
use std::alloc::Global;

/// Writes the capture of a document: the magic and a record for each frame that arrives.
///
/// At Ok exactly the capture was appended to what `out` holds; after an error a front part of it was, and not all.
///
/// # Errors
///
/// [`TextFault::WriteFault`] where writing failed, exactly where the sink's count of faults rose. [`TextFault::NoMemory`] where
/// memory runs out, in the sink too.
pub fn capture_document<K: Sink>(
    alloc: Global,
    document: &Document,
    plan: Plan,
    out: &mut K,
) -> Result<(), TextFault>
    requires document { IsDocument document.now }
    requires plan { HasToSend document.now.config document.now.plan (sent_for document.now) plan }
    ensures front { WritesFront (K.written out.old) (K.written out.new) (capture_of document.now) }
    ensures part { OnErr result (WritesPart (K.written out.old) (K.written out.new) (capture_of document.now)) }
    ensures done { OnOk result (K.written out.new ≡ append_known (K.written out.old) (capture_of document.now)) }
    ensures cause { HasWriteCause (K.faults out.old) (K.faults out.new) result }
    ensures sound { OnOk result (IsSound document.now) }
{
    let mut air = CaptureAir::new(out);
    replay_to(alloc, document, plan, &mut air)?;
    air.finish().map_err(TextFault::from)
}
