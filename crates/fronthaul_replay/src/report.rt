// The report of a document, written, and its count lines alone.
ghost use Rattle.std.specs.Prelude.{◌≡◌, OnErr, OnOk};
ghost use Rattle.std.specs.Io.KnownBytes.{append_known};
ghost use Rattle.fh_base.specs.Told.{WritesFront, WritesPart};
ghost use Rattle.document_traffic.specs.Sending.{sent_for};
ghost use Rattle.du_scheduler.specs.Plans.{HasToSend};
ghost use Rattle.fh_document.specs.Proper.{IsDocument};
ghost use Rattle.fronthaul_replay.specs.Faults.{replay_fault, text_fault};
ghost use Rattle.fronthaul_replay.specs.Laws.{IsSound};
ghost use Rattle.fronthaul_replay.specs.Replay.{HasWriteCause};
ghost use Rattle.fronthaul_replay.specs.Reports.{document_counts, document_report};
ghost use Rattle.fronthaul_replay.specs.declared.report.TextFault.TheVariants.{NoMemory as TextNoMemory};

use crate::replaying::replay_to;
use crate::replays::ReplayFault;
use air_source::AirFault;
use du_scheduler::Plan;
use fh_base::{NoMemory, Sink};
use fh_document::Document;
use report_airs::{CountAir, TextAir};
use std::alloc::Global;
use thiserror::Error;

/// Why the text of a document was not written whole.
#[derive(Clone, Copy, Debug, PartialEq, Eq, Error)]
pub enum TextFault {
    /// The sink failed. A front part of the text was written.
    #[error("the sink failed")]
    WriteFault,
    /// Memory was refused. A front part of the text was written.
    #[error("no memory")]
    NoMemory,
}

impl From<NoMemory> for TextFault {
    ghost from_gives = { λ _ fault. fault ≡ TextNoMemory };

    fn from(_: NoMemory) -> Self {
        TextFault::NoMemory
    }
}

impl From<ReplayFault> for TextFault {
    ghost from_gives = { λ replay fault. fault ≡ text_fault replay };

    fn from(replay: ReplayFault) -> Self {
        match replay {
            ReplayFault::AirFailed => TextFault::WriteFault,
            ReplayFault::NoMemory => TextFault::NoMemory,
        }
    }
}

impl From<AirFault> for TextFault {
    ghost from_gives = { λ air fault. fault ≡ text_fault (replay_fault air) };

    fn from(air: AirFault) -> Self {
        TextFault::from(ReplayFault::from(air))
    }
}

/// Writes the report of a document: each cell that radiates or is taken in, the counters of both units that are not at 0, and `end`.
///
/// At Ok exactly the report was appended to what `out` holds; after an error a front part of it was, and not all.
///
/// # Errors
///
/// [`TextFault::WriteFault`] where writing failed, exactly where the sink's count of faults rose. [`TextFault::NoMemory`] where
/// memory runs out, in the sink too.
pub fn report_document<K: Sink>(
    alloc: Global,
    document: &Document,
    plan: Plan,
    out: &mut K,
) -> Result<(), TextFault>
    requires document { IsDocument document.now }
    requires plan { HasToSend document.now.config document.now.plan (sent_for document.now) plan }
    ensures front { WritesFront (K.written out.old) (K.written out.new) (document_report document.now) }
    ensures part { OnErr result (WritesPart (K.written out.old) (K.written out.new) (document_report document.now)) }
    ensures done { OnOk result (K.written out.new ≡ append_known (K.written out.old) (document_report document.now)) }
    ensures cause { HasWriteCause (K.faults out.old) (K.faults out.new) result }
    ensures sound { OnOk result (IsSound document.now) }
{
    let mut air = TextAir::new(out);
    replay_to(alloc, document, plan, &mut air)?;
    air.finish().map_err(TextFault::from)
}

/// Writes the count lines of a document's report, the counters of both units that are not at 0, and `end`.
///
/// At Ok exactly these were appended to what `out` holds; after an error a front part of them was, and not all.
///
/// # Errors
///
/// As those of [`report_document`].
pub fn count_document<K: Sink>(
    alloc: Global,
    document: &Document,
    plan: Plan,
    out: &mut K,
) -> Result<(), TextFault>
    requires document { IsDocument document.now }
    requires plan { HasToSend document.now.config document.now.plan (sent_for document.now) plan }
    ensures front { WritesFront (K.written out.old) (K.written out.new) (document_counts document.now) }
    ensures part { OnErr result (WritesPart (K.written out.old) (K.written out.new) (document_counts document.now)) }
    ensures done { OnOk result (K.written out.new ≡ append_known (K.written out.old) (document_counts document.now)) }
    ensures cause { HasWriteCause (K.faults out.old) (K.faults out.new) result }
    ensures sound { OnOk result (IsSound document.now) }
{
    let mut air = CountAir::new(out);
    replay_to(alloc, document, plan, &mut air)?;
    air.finish().map_err(TextFault::from)
}
