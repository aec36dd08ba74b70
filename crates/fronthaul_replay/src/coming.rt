// What is still to be received at both units.
ghost use Rattle.std.specs.Prelude.{IfOk};
ghost use Rattle.air_source.specs.Answers.{AnswersBy};
ghost use Rattle.air_source.specs.Kept.{IsKept, closure_of};
ghost use Rattle.document_traffic.specs.Landing.{antenna_for};
ghost use Rattle.document_traffic.specs.Laws.{IsReplayable};
ghost use Rattle.document_traffic.specs.Sending.{sent_for};
ghost use Rattle.du_scheduler.specs.Plans.{HasToSend};
ghost use Rattle.unit_model.specs.Radiated.{first_clock};
ghost use Rattle.fronthaul_replay.specs.Turns.{WaitsInTurn};

use crate::answers::Answers;
use crate::downlink::Downlink;
use air_source::{RePlace, Samples};
use bfp_codec::Wide;
use du_scheduler::Plan;
use fh_base::NoMemory;
use fh_document::Document;
use std::alloc::Global;

/// What is still to be received: at the radio unit, and from it at the distributed unit.
#[derive(Drop)]
pub(crate) struct Coming<'a, G: Fn(RePlace) -> Wide> {
    pub(crate) downlink: Downlink<'a>,
    pub(crate) answers: Answers<'a, G>,
}

/// All frames of a document and of its plan, none of which was sent or has landed, and no answer.
pub(crate) fn coming_of<G: Fn(RePlace) -> Wide>(
    alloc: Global,
    doc: &Document,
    plan: Plan,
    antenna: Samples<G>,
) -> Result<Coming<'_, G>, NoMemory>
    requires document { IsReplayable doc.now }
    requires plan { HasToSend doc.now.config doc.now.plan (sent_for doc.now) plan }
    requires kept { IsKept G.pre G.post antenna }
    requires tone { AnswersBy (G.post (closure_of antenna)) (antenna_for doc.now) }
    ensures { IfOk result (λ w. WaitsInTurn G.pre G.post doc.now first_clock w) }
{
    let downlink = Downlink::make(alloc, doc, plan)?;
    let answers = Answers::make(alloc, doc, antenna)?;
    Ok(Coming { downlink, answers })
}
