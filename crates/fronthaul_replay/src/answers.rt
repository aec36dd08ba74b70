// What the radio unit answers, and what is still to be received at the distributed unit.
ghost use Rattle.std.specs.Prelude.{IfOk};
ghost use Rattle.air_source.specs.Answers.{AnswersBy};
ghost use Rattle.air_source.specs.Kept.{IsKept, closure_of};
ghost use Rattle.fh_base.specs.Least.{IsLeastOf};
ghost use Rattle.document_traffic.specs.Landing.{antenna_for};
ghost use Rattle.document_traffic.specs.Laws.{IsReplayable};
ghost use Rattle.unit_model.specs.Radiated.{first_clock};
ghost use Rattle.fronthaul_replay.specs.Up.{NoneComesUp, WaitsUp};

use air_source::{RePlace, Samples, Side};
use bfp_codec::Wide;
use fh_base::{NoMemory, Ticks};
use fh_document::Document;
use frame_ways::{Outbox, SendQueue, Way, earlier_of};
use std::alloc::Global;
use uplink_path::Uplink;

/// What the radio unit sends: what makes its uplink frames, those that wait for the times at which they leave, and the way to the
/// distributed unit. The memory of frames that have landed is in the outbox, whose frames take it.
#[derive(Drop)]
pub(crate) struct Answers<'a, G: Fn(RePlace) -> Wide> {
    pub(crate) uplink: Uplink<G>,
    pub(crate) outbox: Outbox,
    pub(crate) queue: SendQueue,
    pub(crate) way: Way<'a>,
}

impl<'a, G: Fn(RePlace) -> Wide> Answers<'a, G> {
    ghost use Rattle.std.specs.Prelude.{ℤ};
    ghost use Rattle.fh_document.specs.declared.document.Document.{Document as SpecDocument};

    /// Nothing was answered, and none of the document's frames has landed.
    pub(crate) fn make(
        alloc: Global,
        doc: &'a Document,
        antenna: Samples<G>,
    ) -> Result<Answers<'a, G>, NoMemory>
        requires document { IsReplayable doc.now }
        requires kept { IsKept G.pre G.post antenna }
        requires tone { AnswersBy (G.post (closure_of antenna)) (antenna_for doc.now) }
        ensures { IfOk result (λ a. WaitsUp G.pre G.post doc.now first_clock a.uplink a.outbox.frames a.queue a.way) }
    {
        let uplink = Uplink::make(alloc, &doc.config, antenna)?;
        let outbox = Outbox::new(alloc);
        let queue = SendQueue::make(alloc);
        let way = Way::make(alloc, doc, Side::Du)?;
        Ok(Answers {
            uplink,
            outbox,
            queue,
            way,
        })
    }

    /// The next time at which a frame leaves the radio unit or lands at the distributed unit. None where none does.
    pub(crate) fn next_time(&self) -> Option<Ticks>
        ensures { (d : SpecDocument) (now : ℤ) (waits : WaitsUp G.pre G.post d now self.now.uplink self.now.outbox.frames self.now.queue self.now.way)
            → IsLeastOf (NoneComesUp d now self.now.queue waits.frames.on_way.sent) result }
    {
        earlier_of(self.queue.next_time(), self.way.next_time())
    }
}
