// What is still to be received at the radio unit.
ghost use Rattle.std.specs.Prelude.{IfOk};
ghost use Rattle.du_scheduler.specs.Plans.{HasToSend, IsPlan};
ghost use Rattle.fh_base.specs.Least.{IsLeastOf};
ghost use Rattle.document_traffic.specs.Laws.{IsReplayable};
ghost use Rattle.document_traffic.specs.Sending.{sent_for};
ghost use Rattle.unit_model.specs.Radiated.{first_clock};
ghost use Rattle.fronthaul_replay.specs.Down.{NoneComesDown, WaitsDown};

use air_source::Side;
use du_scheduler::Plan;
use fh_base::{NoMemory, Ticks};
use fh_document::Document;
use frame_ways::{FramePool, Way, earlier_of};
use std::alloc::Global;

/// What the distributed unit sends: the frames that its plan has still to send, and the way to the radio unit, with the memory of frames
/// that have landed.
#[derive(Drop)]
pub(crate) struct Downlink<'a> {
    pub(crate) plan: Plan,
    pub(crate) way: Way<'a>,
    pub(crate) pool: FramePool,
}

impl<'a> Downlink<'a> {
    ghost use Rattle.std.specs.Prelude.{ℤ};
    ghost use Rattle.fh_document.specs.declared.document.Document.{Document as SpecDocument};

    /// All frames of a document and of its plan, none of which was sent or has landed.
    pub(crate) fn make(
        alloc: Global,
        doc: &'a Document,
        plan: Plan,
    ) -> Result<Downlink<'a>, NoMemory>
        requires document { IsReplayable doc.now }
        requires plan { HasToSend doc.now.config doc.now.plan (sent_for doc.now) plan }
        ensures { IfOk result (λ w. WaitsDown doc.now first_clock w.plan w.way) }
    {
        let way = Way::make(alloc, doc, Side::Ru)?;
        Ok(Downlink {
            plan,
            way,
            pool: FramePool::new(alloc),
        })
    }

    /// The next time at which a frame is sent or lands. None where none is and none does.
    pub(crate) fn next_time(&self) -> Option<Ticks>
        requires { IsPlan self.now.plan }
        ensures { (d : SpecDocument) (now : ℤ) (waits : WaitsDown d now self.now.plan self.now.way) → IsLeastOf (NoneComesDown d now waits.left waits.way.sent) result }
    {
        earlier_of(self.plan.next_time(), self.way.next_time())
    }
}
