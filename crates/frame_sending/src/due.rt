// The frames of a plan that leave the distributed unit at one time.
ghost use Rattle.std.specs.Prelude.{◌≡◌, ◌≢◌, ℤ, ◌+ℤ◌, ◌≤ℤ◌, List, ◌∷◌, OnOk, Some, map, true, false};
ghost use Rattle.air_source.specs.Kept.{IsKept, closure_of};
ghost use Rattle.air_source.specs.declared.places.RePlace.{RePlace as SpecPlace};
ghost use Rattle.bfp_codec.specs.declared.samples.Wide.{Wide as SpecWide};
ghost use Rattle.du_scheduler.specs.Plans.{HasToSend, IsPlan};
ghost use Rattle.du_scheduler.specs.Queues.{first_time};
ghost use Rattle.plan_model.specs.Sent.{SentFrame};
ghost use Rattle.du_scheduler.specs.Runs.{turn_of};
ghost use Rattle.fh_document.specs.Proper.{IsDocument};
ghost use Rattle.frame_ways.specs.Ways.{OnWay, StandsFor, document_of, having_sent};
ghost use Rattle.window_config.specs.declared.config.Config.{Config};
ghost use Rattle.window_config.specs.declared.plan.PlanLine.{PlanLine};
ghost use Rattle.frame_sending.specs.Due.{AreSentFrom, HasSentDue, MaySend, class_for, leaving_by};

use air_source::{RePlace, Samples};
use bfp_codec::Wide;
use du_scheduler::{Plan, Plane};
use fh_base::{NoMemory, Ticks};
use fh_document::TrafficClass;
use frame_ways::{FramePool, Way};

/// The class of the frames of a plane.
fn class_of(plane: Plane) -> TrafficClass
    ensures { result ≡ class_for plane }
{
    match plane {
        Plane::C => TrafficClass::C,
        Plane::U => TrafficClass::U,
    }
}

/// Whether the next frame of a plan leaves at a tick.
fn leaves_at(plan: &Plan, tick: Ticks) -> bool
    requires { IsPlan plan.now }
    ensures yes { result ≡ true → (c : Config) (lines : List PlanLine) (left : List SentFrame) → HasToSend c lines left plan.now → first_time (map turn_of left) ≡ Some tick }
    ensures no { result ≡ false → (c : Config) (lines : List PlanLine) (left : List SentFrame) → HasToSend c lines left plan.now → first_time (map turn_of left) ≢ Some tick }
{
    match plan.next_time() {
        Some(at) => at == tick,
        None => false,
    }
}

/// Sends the next frame of a plan, if there is one.
fn send_next<F: Fn(RePlace) -> Wide>(
    source: &Samples<F>,
    plan: &mut Plan,
    pool: &mut FramePool,
    way: &mut Way<'_>,
) -> Result<(), NoMemory>
    requires kept { IsKept F.pre F.post source.now }
    requires document { IsDocument (document_of way.old) }
    requires some { (c : Config) × (lines : List PlanLine) × (left : List SentFrame) × (answer : SpecPlace → SpecWide) × MaySend (F.post (closure_of source.now)) c lines left answer plan.old }
    ensures rest { (c : Config) (lines : List PlanLine) (f : SentFrame) (rest : List SentFrame) → HasToSend c lines (f ∷ rest) plan.old → HasToSend c lines rest plan.new }
    ensures sent { (c : Config) (lines : List PlanLine) (f : SentFrame) (rest : List SentFrame) (answer : SpecPlace → SpecWide) (v : OnWay) (now : ℤ)
        → MaySend (F.post (closure_of source.now)) c lines (f ∷ rest) answer plan.old → now ≤ℤ f.at → StandsFor v now way.old
        → OnOk result (StandsFor (having_sent v (leaving_by c answer f)) now way.new) }
    ensures document { document_of way.new ≡ document_of way.old }
{
    match plan.next_frame(source) {
        Some(frame) => way.send(pool, frame.at, class_of(frame.plane), frame.bytes),
        None => Ok(()),
    }
}

/// Sends all frames of a plan that leave at a tick, in the order of what is sent.
///
/// # Errors
///
/// [`NoMemory`] where memory runs out.
pub fn send_due<F: Fn(RePlace) -> Wide>(
    tick: Ticks,
    source: &Samples<F>,
    plan: &mut Plan,
    pool: &mut FramePool,
    way: &mut Way<'_>,
) -> Result<(), NoMemory>
    requires kept { IsKept F.pre F.post source.now }
    requires document { IsDocument (document_of way.old) }
    requires some { (c : Config) × (lines : List PlanLine) × (left : List SentFrame) × (answer : SpecPlace → SpecWide) × MaySend (F.post (closure_of source.now)) c lines left answer plan.old }
    ensures sent { (c : Config) (lines : List PlanLine) (left : List SentFrame) (answer : SpecPlace → SpecWide) (v : OnWay) → MaySend (F.post (closure_of source.now)) c lines left answer plan.old
        → AreSentFrom tick.0 left → StandsFor v tick.0 way.old → OnOk result (HasSentDue c lines left answer v tick.0 plan.new way.new) }
    ensures document { document_of way.new ≡ document_of way.old }
{
    while leaves_at(plan, tick) {
        send_next(source, plan, pool, way)?;
    }
    Ok(())
}
