// The distributed unit's part of a moment.
ghost use Rattle.std.specs.Prelude.{◌≡◌, ℤ, pos, ◌+ℤ◌, ◌≤ℤ◌, List, ◌∷◌, All, IfErr, IsErrOf, OnErr, OnOk, map};
ghost use Rattle.air_source.specs.Causes.{HasAirCause};
ghost use Rattle.air_source.specs.declared.airs.AirFault.TheVariants.{Failed, NoMemory as WantsMemory};
ghost use Rattle.air_source.specs.declared.events.Event.TheVariants.{Cell as Reported};
ghost use Rattle.air_source.specs.declared.events.Side.TheVariants.{Du as AtDu};
ghost use Rattle.du_intake.specs.Calls.{IntakeStandsFor, intake_clock};
ghost use Rattle.du_intake.specs.Closing.{IntakeStandsForSome, IntakeStopsAtDue};
ghost use Rattle.du_intake.specs.Units.{intake_due_of};
ghost use Rattle.frame_ways.specs.Landing.{landing_at};
ghost use Rattle.frame_ways.specs.Leaving.{Leaving};
ghost use Rattle.document_traffic.specs.Replayed.{landings_for, made_at};
ghost use Rattle.document_traffic.specs.Settings.{compensation_of};
ghost use Rattle.document_traffic.specs.Laws.{IsReplayable};
ghost use Rattle.replay_laws.specs.Moments.{end_of_time};
ghost use Rattle.unit_model.specs.Meetings.{Arrival};
ghost use Rattle.unit_model.specs.Proper.{IsTime};
ghost use Rattle.unit_model.specs.Standing.{History, at_clock, heard};
ghost use Rattle.unit_model.specs.declared.allocations.Allocation.{Allocation};
ghost use Rattle.unit_moments.specs.Heard.{HeardAnyhow};
ghost use Rattle.window_config.specs.declared.config.Config.{Config};
ghost use Rattle.fh_document.specs.declared.document.Document.{Document as SpecDocument};
ghost use Rattle.fronthaul_replay.specs.Answering.{Answered, IsDueAt, MayAnswer};
ghost use Rattle.fronthaul_replay.specs.BoxTurns.{AtRadioTurn, HasRadioLanded, IsRadioInStep, intake_events};
ghost use Rattle.fronthaul_replay.specs.Up.{HasLandedUp, WaitsUp};
ghost use Rattle.fronthaul_replay.specs.IntakeTurns.{AtIntakeTurn, IsIntakeInStep, heard_before};
ghost use Rattle.fronthaul_replay.specs.Waiting.{LandsAfter, Waits, begun_at};
ghost use Rattle.unit_moments.specs.Stops.{HaltsBehind, StopsBehind};
ghost use Rattle.delay_exchange.specs.Units.{HasDoings};

use crate::answers::Answers;
use air_source::{AirFault, RePlace, Side};
use bfp_codec::Wide;
use delay_exchange::UnitMeter;
use du_intake::Intake;
use fh_base::{NoMemory, Ticks};
use fh_document::Document;
use frame_sending::release_all;
use frame_ways::{FramePool, Way};
use ru_buffers::Ru;
use unit_moments::{ListeningAir, Reports, land};

/// Takes all messages that are due from the unit; their frames wait for the times at which they leave.
fn answer<G: Fn(RePlace) -> Wide>(ru: &mut Ru, answers: &mut Answers<'_, G>) -> Result<(), NoMemory>
    requires { MayAnswer G.pre G.post ru.old answers.old.uplink answers.old.outbox.frames answers.old.queue answers.old.way }
    ensures done { (d : SpecDocument) (tick : ℤ) → IsDueAt d tick → HasRadioLanded d tick ru.old → WaitsUp G.pre G.post d tick answers.old.uplink answers.old.outbox.frames answers.old.queue answers.old.way
        → OnOk result (Answered G.pre G.post d tick ru.new answers.new.uplink answers.new.outbox.frames answers.new.queue answers.new.way) }
    ensures stays { (d : SpecDocument) (tick : ℤ) → IsDueAt d tick → HasRadioLanded d tick ru.old → WaitsUp G.pre G.post d tick answers.old.uplink answers.old.outbox.frames answers.old.queue answers.old.way
        → IsRadioInStep d (heard_before d tick) ru.new }
{
    answers.uplink.emit(ru, &mut answers.outbox)?;
    answers.queue.fill(&mut answers.outbox)
}

/// Tells what listens to the distributed unit its cells up to a time, as [`Intake::close_until`] does an air.
fn close_until<A: ListeningAir>(intake: &mut Intake, to: Ticks, out: &mut A) -> Result<(), AirFault>
    requires unit { IntakeStandsForSome intake.old }
    requires order { (intake_clock intake.old).0 ≤ℤ to.0 }
    requires time { IsTime to.0 }
    ensures heard { (c : Config) (planned : List Allocation) (h : History) → IntakeStandsFor c planned intake.old h
        → OnOk result (HeardAnyhow A.grew out.old (map Reported (intake_due_of c planned h to.0)) out.new) }
    ensures stands { (c : Config) (planned : List Allocation) (h : History) → IntakeStandsFor c planned intake.old h
        → OnOk result (IntakeStandsFor c planned intake.new (at_clock (heard h (intake_due_of c planned h to.0)) to.0)) }
    ensures clock { OnOk result (intake_clock intake.new ≡ to) }
    ensures stop { (c : Config) (planned : List Allocation) (h : History) → IntakeStandsFor c planned intake.old h
        → IfErr result (λ f. IntakeStopsAtDue (HeardAnyhow A.grew) (A.stopped f) c planned h to.0 intake.new out.old out.new) }
    ensures same { A.same out.old out.new }
    ensures cause { HasAirCause (A.faults out.old) (A.faults out.new) result }
{
    intake.close_until(to, &mut Reports::to(out))
}

/// All that lands at the distributed unit at a moment is told, and then its cells, where the radio unit's frames of the moment have left.
fn intake_lands<A: ListeningAir>(
    doc: &Document,
    tick: Ticks,
    intake: &mut Intake,
    meter: &mut UnitMeter,
    way: &mut Way<'_>,
    pool: &mut FramePool,
    out: &mut A,
) -> Result<(), AirFault>
    requires document { IsReplayable doc.now }
    requires turn { AtIntakeTurn doc.now tick.0 intake.old }
    requires waits { (left : List Leaving) × All (LandsAfter tick.0) left × Waits doc.now AtDu tick.0 left way.old }
    requires begun { HasDoings (compensation_of doc.now AtDu) (begun_at doc.now AtDu tick.0) meter.old }
    requires late { (a : Arrival) (more : List Arrival) → landing_at (landings_for AtDu doc.now) tick.0 ≡ a ∷ more → pos 0 ≤ℤ tick.0 }
    requires ended { tick.0 ≤ℤ end_of_time }
    ensures heard { OnOk result (A.grew doc.now.config (heard_before doc.now tick.0) out.old (intake_events doc.now tick.0) out.new) }
    ensures turn { OnOk result (AtIntakeTurn doc.now (tick.0 +ℤ pos 1) intake.new) }
    ensures waits { (left : List Leaving) → All (LandsAfter tick.0) left → Waits doc.now AtDu tick.0 left way.old → OnOk result (Waits doc.now AtDu (tick.0 +ℤ pos 1) left way.new) }
    ensures made { OnOk result (HasDoings (compensation_of doc.now AtDu) (made_at doc.now AtDu tick.0) meter.new) }
    ensures stop { IsErrOf result Failed → StopsBehind (A.grew doc.now.config (heard_before doc.now tick.0)) (A.stopped Failed) (λ told. IsIntakeInStep doc.now told intake.new) (heard_before doc.now tick.0) (intake_events doc.now tick.0) out.old out.new }
    ensures wants { IsErrOf result WantsMemory → HaltsBehind (A.grew doc.now.config (heard_before doc.now tick.0)) (A.stopped WantsMemory) (λ told. IsIntakeInStep doc.now told intake.new) (heard_before doc.now tick.0) (intake_events doc.now tick.0) out.old out.new }
    ensures same { A.same out.old out.new }
    ensures cause { HasAirCause (A.faults out.old) (A.faults out.new) result }
{
    land(Side::Du, tick, intake, meter, way, pool, out)?;
    close_until(intake, tick, out)
}

/// What follows the radio unit's part of a moment: its messages of this time are handed over, the frames that leave then are in
/// flight, all that lands at the distributed unit is delivered, and this unit's cells are told.
pub(crate) fn intake_moment<A: ListeningAir, G: Fn(RePlace) -> Wide>(
    doc: &Document,
    tick: Ticks,
    ru: &mut Ru,
    answers: &mut Answers<'_, G>,
    intake: &mut Intake,
    meter: &mut UnitMeter,
    out: &mut A,
) -> Result<(), AirFault>
    requires document { IsReplayable doc.now }
    requires landed { HasRadioLanded doc.now tick.0 ru.old }
    requires waits { WaitsUp G.pre G.post doc.now tick.0 answers.old.uplink answers.old.outbox.frames answers.old.queue answers.old.way }
    requires turn { AtIntakeTurn doc.now tick.0 intake.old }
    requires begun { HasDoings (compensation_of doc.now AtDu) (begun_at doc.now AtDu tick.0) meter.old }
    requires ended { tick.0 ≤ℤ end_of_time }
    ensures heard { OnOk result (A.grew doc.now.config (heard_before doc.now tick.0) out.old (intake_events doc.now tick.0) out.new) }
    ensures radio { OnOk result (AtRadioTurn doc.now (tick.0 +ℤ pos 1) ru.new) }
    ensures waits { OnOk result (HasLandedUp G.pre G.post doc.now tick.0 answers.new.uplink answers.new.outbox.frames answers.new.queue answers.new.way) }
    ensures made { OnOk result (HasDoings (compensation_of doc.now AtDu) (made_at doc.now AtDu tick.0) meter.new) }
    ensures turn { OnOk result (AtIntakeTurn doc.now (tick.0 +ℤ pos 1) intake.new) }
    ensures stays { OnErr result (IsRadioInStep doc.now (heard_before doc.now tick.0) ru.new) }
    ensures stop { IsErrOf result Failed → StopsBehind (A.grew doc.now.config (heard_before doc.now tick.0)) (A.stopped Failed) (λ told. IsIntakeInStep doc.now told intake.new) (heard_before doc.now tick.0) (intake_events doc.now tick.0) out.old out.new }
    ensures wants { IsErrOf result WantsMemory → HaltsBehind (A.grew doc.now.config (heard_before doc.now tick.0)) (A.stopped WantsMemory) (λ told. IsIntakeInStep doc.now told intake.new) (heard_before doc.now tick.0) (intake_events doc.now tick.0) out.old out.new }
    ensures same { A.same out.old out.new }
    ensures cause { HasAirCause (A.faults out.old) (A.faults out.new) result }
{
    answer(ru, answers)?;
    release_all(
        tick,
        &mut answers.queue,
        answers.outbox.pool_mut(),
        &mut answers.way,
    )?;
    intake_lands(
        doc,
        tick,
        intake,
        meter,
        &mut answers.way,
        answers.outbox.pool_mut(),
        out,
    )
}
