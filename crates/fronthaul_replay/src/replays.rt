// The replay.
ghost use Rattle.std.specs.Prelude.{◌≡◌, [], IsErrOf, OnOk};
ghost use Rattle.air_source.specs.Answers.{AnswersBy};
ghost use Rattle.air_source.specs.Causes.{HasAirCause};
ghost use Rattle.air_source.specs.Kept.{IsKept, closure_of};
ghost use Rattle.air_source.specs.declared.airs.AirFault.TheVariants.{Failed, NoMemory as AirWantsMemory};
ghost use Rattle.document_traffic.specs.Landing.{antenna_for};
ghost use Rattle.document_traffic.specs.Sending.{sent_for};
ghost use Rattle.fronthaul_replay.specs.Measuring.{MeasuresWait};
ghost use Rattle.du_intake.specs.Calls.{IntakeStandsFor};
ghost use Rattle.du_scheduler.specs.Plans.{HasToSend};
ghost use Rattle.fh_document.specs.Proper.{IsDocument};
ghost use Rattle.fronthaul_replay.specs.IntakeTurns.{planned_for};
ghost use Rattle.ru_buffers.specs.Calls.{StandsFor};
ghost use Rattle.air_source.specs.Tones.{tone_of};
ghost use Rattle.unit_model.specs.Radiated.{first_clock};
ghost use Rattle.unit_model.specs.Standing.{nothing_yet};
ghost use Rattle.fronthaul_replay.specs.Faults.{replay_fault};
ghost use Rattle.fronthaul_replay.specs.Laws.{IsSound};
ghost use Rattle.fronthaul_replay.specs.Replay.{HasReplayCause};
ghost use Rattle.fronthaul_replay.specs.Replaying.{HaltsInStep, IsDone, IsReplayable, StopsInStep, events_of};
ghost use Rattle.fronthaul_replay.specs.Turns.{WaitsInTurn};
ghost use Rattle.fronthaul_replay.specs.declared.replays.ReplayFault.TheVariants.{AirFailed, NoMemory as WantsMemory};

use crate::coming::{Coming, coming_of};
use crate::counting::tell_counts;
use crate::measuring::meters_of;
use crate::moments::pass;
use air_source::{Air, AirFault, RePlace, Samples, Side};
use bfp_codec::Wide;
use du_intake::Intake;
use du_scheduler::Plan;
use fh_base::NoMemory;
use fh_document::Document;
use ru_buffers::Ru;
use std::alloc::Global;
use thiserror::Error;
use unit_meters::Meters;
use unit_moments::ListeningAir;

/// Why a replay did not reach its end.
#[derive(Clone, Copy, Debug, PartialEq, Eq, Error)]
pub enum ReplayFault {
    /// The air failed in an event: it heard those before it, and both units are in step with them.
    #[error("the air failed")]
    AirFailed,
    /// Memory was refused, to the replay or to the air in an event: the air heard the first of the events, and both units are in step
    /// with them.
    #[error("no memory")]
    NoMemory,
}

impl From<NoMemory> for ReplayFault {
    ghost from_gives = { λ _ fault. fault ≡ WantsMemory };

    fn from(_: NoMemory) -> Self {
        ReplayFault::NoMemory
    }
}

impl From<AirFault> for ReplayFault {
    ghost from_gives = { λ air fault. fault ≡ replay_fault air };

    fn from(air: AirFault) -> Self {
        match air {
            AirFault::Failed => ReplayFault::AirFailed,
            AirFault::NoMemory => ReplayFault::NoMemory,
        }
    }
}

/// Replays a document: the frames of its plan are sent at their times with the samples of `du`, the radio unit answers the uplink
/// sections that it accepts with the samples of `antenna`, both units measure delays at the document's times with its compensations, the
/// frames of both ways are lost, repeated and delayed as the document says, and its injected frames are received between them. The air
/// hears each frame that arrives at a unit (refused ones too), after it each delay that it makes known, each cell that the radio unit
/// radiates or the distributed unit takes in, and at the end the counters that are not 0, in the order of events: at one time the radio
/// unit's cells, its arrivals, the distributed unit's arrivals, and its cells; copies of sent frames, in the order in which they are sent,
/// precede injected frames, in the order of the document. At one time measurements begin first, and the frames that both units made for
/// them leave last.
///
/// Of these events holds, for every document: no cell is reported twice; what a cell shows was received within its window and was commanded
/// on time, or planned, under the same section id; the counters add up; the frames that arrive are those that are sent and listed; and
/// each delay is after the frame that gave it. Where the windows pass the check, nothing is injected and each frame that is sent to
/// the radio unit has a copy, each within T12, each scheduled downlink element radiates exactly once, with its samples as compression
/// leaves them; and where each frame that the radio unit sends has a copy too, each within T34, each planned uplink element is taken in
/// exactly once. Where no injected frame has a message of delay measurement, each delay is that of the one request of its id and of a copy
/// of its frame.
///
/// # Errors
///
/// [`ReplayFault::AirFailed`] where the air stopped as failed, exactly where its count of faults rose. [`ReplayFault::NoMemory`] where
/// the air stopped for want of memory, or memory runs out for the replay's own work.
pub fn replay<A: Air, F: Fn(RePlace) -> Wide, G: Fn(RePlace) -> Wide>(
    alloc: Global,
    doc: &Document,
    plan: Plan,
    ru: &mut Ru,
    intake: &mut Intake,
    du: Samples<F>,
    antenna: Samples<G>,
    out: &mut A,
) -> Result<(), ReplayFault>
    requires document { IsDocument doc.now }
    requires plan { HasToSend doc.now.config doc.now.plan (sent_for doc.now) plan }
    requires kept { IsKept F.pre F.post du }
    requires tone { AnswersBy (F.post (closure_of du)) (tone_of doc.now.source) }
    requires antenna_kept { IsKept G.pre G.post antenna }
    requires antenna_tone { AnswersBy (G.post (closure_of antenna)) (antenna_for doc.now) }
    requires unit { StandsFor doc.now.config ru.old nothing_yet }
    requires intake { IntakeStandsFor doc.now.config (planned_for doc.now) intake.old nothing_yet }
    ensures heard { OnOk result (A.grew out.old (events_of doc.now) out.new) }
    ensures done { OnOk result (IsDone doc.now ru.new intake.new) }
    ensures stopped { IsErrOf result AirFailed → StopsInStep A.grew (A.stopped Failed) doc.now ru.new intake.new out.old out.new }
    ensures wants { IsErrOf result WantsMemory → HaltsInStep A.grew (A.stopped AirWantsMemory) doc.now ru.new intake.new out.old out.new }
    ensures cause { HasReplayCause (A.faults out.old) (A.faults out.new) result }
    ensures same { A.same out.old out.new }
    ensures sound { IsSound doc.now }
{
    replay_listening(alloc, doc, plan, ru, intake, du, antenna, out)
}

/// Replays a document as [`replay`] does, and tells what listens to its units, of each frame, what the unit judges of it.
///
/// # Errors
///
/// As those of [`replay`].
pub fn replay_listening<A: ListeningAir, F: Fn(RePlace) -> Wide, G: Fn(RePlace) -> Wide>(
    alloc: Global,
    doc: &Document,
    plan: Plan,
    ru: &mut Ru,
    intake: &mut Intake,
    du: Samples<F>,
    antenna: Samples<G>,
    out: &mut A,
) -> Result<(), ReplayFault>
    requires document { IsDocument doc.now }
    requires plan { HasToSend doc.now.config doc.now.plan (sent_for doc.now) plan }
    requires kept { IsKept F.pre F.post du }
    requires tone { AnswersBy (F.post (closure_of du)) (tone_of doc.now.source) }
    requires antenna_kept { IsKept G.pre G.post antenna }
    requires antenna_tone { AnswersBy (G.post (closure_of antenna)) (antenna_for doc.now) }
    requires unit { StandsFor doc.now.config ru.old nothing_yet }
    requires intake { IntakeStandsFor doc.now.config (planned_for doc.now) intake.old nothing_yet }
    ensures heard { OnOk result (A.grew doc.now.config [] out.old (events_of doc.now) out.new) }
    ensures done { OnOk result (IsDone doc.now ru.new intake.new) }
    ensures stopped { IsErrOf result AirFailed → StopsInStep (A.grew doc.now.config []) (A.stopped Failed) doc.now ru.new intake.new out.old out.new }
    ensures wants { IsErrOf result WantsMemory → HaltsInStep (A.grew doc.now.config []) (A.stopped AirWantsMemory) doc.now ru.new intake.new out.old out.new }
    ensures cause { HasReplayCause (A.faults out.old) (A.faults out.new) result }
    ensures same { A.same out.old out.new }
    ensures sound { IsSound doc.now }
{
    let mut coming = coming_of(alloc, doc, plan, antenna)?;
    let mut meters = meters_of(alloc, doc)?;
    run(doc, &du, ru, intake, &mut coming, &mut meters, out).map_err(ReplayFault::from)
}

/// Lets all frames land, and tells the counters of both units.
fn run<A: ListeningAir, F: Fn(RePlace) -> Wide, G: Fn(RePlace) -> Wide>(
    doc: &Document,
    du: &Samples<F>,
    ru: &mut Ru,
    intake: &mut Intake,
    coming: &mut Coming<'_, G>,
    meters: &mut Meters<'_>,
    out: &mut A,
) -> Result<(), AirFault>
    requires kept { IsKept F.pre F.post du.now }
    requires tone { AnswersBy (F.post (closure_of du.now)) (tone_of doc.now.source) }
    requires document { IsReplayable doc.now }
    requires unit { StandsFor doc.now.config ru.old nothing_yet }
    requires intake { IntakeStandsFor doc.now.config (planned_for doc.now) intake.old nothing_yet }
    requires waits { WaitsInTurn G.pre G.post doc.now first_clock coming.old }
    requires measures { MeasuresWait doc.now first_clock meters.old }
    ensures heard { OnOk result (A.grew doc.now.config [] out.old (events_of doc.now) out.new) }
    ensures done { OnOk result (IsDone doc.now ru.new intake.new) }
    ensures stop { IsErrOf result Failed → StopsInStep (A.grew doc.now.config []) (A.stopped Failed) doc.now ru.new intake.new out.old out.new }
    ensures wants { IsErrOf result AirWantsMemory → HaltsInStep (A.grew doc.now.config []) (A.stopped AirWantsMemory) doc.now ru.new intake.new out.old out.new }
    ensures same { A.same out.old out.new }
    ensures cause { HasAirCause (A.faults out.old) (A.faults out.new) result }
{
    pass(doc, du, ru, intake, coming, meters, out)?;
    tell_counts(Side::Ru, ru.counters(), &meters.ru, out)?;
    tell_counts(Side::Du, intake.counters(), &meters.du, out)
}
