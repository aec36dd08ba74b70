// The moments of a replay, one after the other.
ghost use Rattle.std.specs.Prelude.{ℤ, pos, ◌+ℤ◌, ◌≤ℤ◌, [], IsErrOf, OnOk, List};
ghost use Rattle.air_source.specs.Answers.{AnswersBy};
ghost use Rattle.air_source.specs.Causes.{HasAirCause};
ghost use Rattle.air_source.specs.Kept.{IsKept, closure_of};
ghost use Rattle.air_source.specs.declared.airs.AirFault.TheVariants.{Failed, NoMemory as WantsMemory};
ghost use Rattle.document_traffic.specs.Laws.{IsReplayable};
ghost use Rattle.du_scheduler.specs.Plans.{IsPlan};
ghost use Rattle.fh_document.specs.declared.document.Document.{Document as SpecDocument};
ghost use Rattle.fronthaul_replay.specs.Measuring.{MeasuresWait};
ghost use Rattle.document_traffic.specs.Replayed.{traffic_of};
ghost use Rattle.unit_moments.specs.Stops.{HaltsBehind, StopsBehind};
ghost use Rattle.fronthaul_replay.specs.BoxTurns.{events_before};
ghost use Rattle.replay_laws.specs.Events.{events_at};
ghost use Rattle.replay_laws.specs.Moments.{end_of_time};
ghost use Rattle.air_source.specs.Tones.{tone_of};
ghost use Rattle.unit_model.specs.Radiated.{first_clock};
ghost use Rattle.fronthaul_replay.specs.Replaying.{IsInStep};
ghost use Rattle.fronthaul_replay.specs.Turns.{AtMoment, AtTurn, TurnHasBegun, TurnHasLanded, IsNextTick, WaitsInTurn};

use crate::coming::Coming;
use crate::intake::intake_moment;
use crate::radio::radio_moment;
use crate::times::{is_up_to, tick_after, up_to_end};
use air_source::{AirFault, RePlace, Samples};
use bfp_codec::Wide;
use du_intake::Intake;
use fh_base::{FIRST_CLOCK, NoMemory, Ticks};
use fh_document::Document;
use frame_ways::earlier_of;
use ru_buffers::Ru;
use unit_meters::Meters;
use unit_moments::{ListeningAir, send_made};

/// The next time at which a cell or a message is due at a unit, a frame leaves or lands, or a measurement begins. None where there is none
/// up to the end.
fn next_moment<G: Fn(RePlace) -> Wide>(
    ru: &Ru,
    intake: &Intake,
    coming: &Coming<'_, G>,
    meters: &Meters<'_>,
) -> Option<Ticks>
    requires { IsPlan coming.now.downlink.plan }
    ensures { (d : SpecDocument) (now : ℤ) (at : AtMoment G.pre G.post d now ru.now intake.now coming.now meters.now)
        → IsNextTick d now at.turn.radio.history at.turn.intake.history at.waits.down.left at.waits.down.way.sent coming.now.answers.queue at.waits.up.frames.on_way.sent result }
{
    let units = earlier_of(ru.due(), intake.due());
    let frames = earlier_of(coming.downlink.next_time(), coming.answers.next_time());
    up_to_end(earlier_of(earlier_of(units, frames), meters.next_time()))
}

/// The frames of delay measurement that both units made at a time leave.
fn send_both<G: Fn(RePlace) -> Wide>(
    tick: Ticks,
    coming: &mut Coming<'_, G>,
    meters: &mut Meters<'_>,
) -> Result<(), NoMemory>
    requires begun { first_clock ≤ℤ tick.0 }
    requires ended { tick.0 ≤ℤ end_of_time }
    requires some { (d : SpecDocument) × TurnHasLanded G.pre G.post d tick.0 coming.old meters.old }
    ensures { (d : SpecDocument) → IsReplayable d → TurnHasLanded G.pre G.post d tick.0 coming.old meters.old
        → OnOk result (WaitsInTurn G.pre G.post d (tick.0 +ℤ pos 1) coming.new × MeasuresWait d (tick.0 +ℤ pos 1) meters.new) }
{
    let downlink = &mut coming.downlink;
    send_made(tick, &mut meters.du, &mut downlink.pool, &mut downlink.way)?;
    let answers = &mut coming.answers;
    send_made(
        tick,
        &mut meters.ru,
        answers.outbox.pool_mut(),
        &mut answers.way,
    )
}

/// What happens at both units at one time, once its measurements have begun: the plan's frames that leave then; the radio unit's cells and
/// the frames that land at it; its answers; then the frames that land at the distributed unit, and that unit's cells.
fn land<A: ListeningAir, F: Fn(RePlace) -> Wide, G: Fn(RePlace) -> Wide>(
    doc: &Document,
    tick: Ticks,
    du: &Samples<F>,
    ru: &mut Ru,
    intake: &mut Intake,
    coming: &mut Coming<'_, G>,
    meters: &mut Meters<'_>,
    out: &mut A,
) -> Result<(), AirFault>
    requires kept { IsKept F.pre F.post du.now }
    requires tone { AnswersBy (F.post (closure_of du.now)) (tone_of doc.now.source) }
    requires document { IsReplayable doc.now }
    requires begun { TurnHasBegun G.pre G.post doc.now tick.0 ru.old intake.old coming.old meters.old }
    requires ended { tick.0 ≤ℤ end_of_time }
    ensures heard { OnOk result (A.grew doc.now.config (events_before doc.now tick.0) out.old (events_at doc.now.config (traffic_of doc.now) tick.0) out.new) }
    ensures turn { OnOk result (AtTurn doc.now (tick.0 +ℤ pos 1) ru.new intake.new) }
    ensures landed { OnOk result (TurnHasLanded G.pre G.post doc.now tick.0 coming.new meters.new) }
    ensures stop { IsErrOf result Failed → StopsBehind (A.grew doc.now.config (events_before doc.now tick.0)) (A.stopped Failed) (λ told. IsInStep doc.now told ru.new intake.new) (events_before doc.now tick.0) (events_at doc.now.config (traffic_of doc.now) tick.0) out.old out.new }
    ensures wants { IsErrOf result WantsMemory → HaltsBehind (A.grew doc.now.config (events_before doc.now tick.0)) (A.stopped WantsMemory) (λ told. IsInStep doc.now told ru.new intake.new) (events_before doc.now tick.0) (events_at doc.now.config (traffic_of doc.now) tick.0) out.old out.new }
    ensures same { A.same out.old out.new }
    ensures cause { HasAirCause (A.faults out.old) (A.faults out.new) result }
{
    radio_moment(doc, tick, du, ru, &mut meters.ru, &mut coming.downlink, out)?;
    intake_moment(
        doc,
        tick,
        ru,
        &mut coming.answers,
        intake,
        &mut meters.du,
        out,
    )
}

/// What happens at one time: measurements begin, both units' frames land and their cells are told, and the frames of delay measurement that
/// both made leave.
fn moment<A: ListeningAir, F: Fn(RePlace) -> Wide, G: Fn(RePlace) -> Wide>(
    doc: &Document,
    tick: Ticks,
    du: &Samples<F>,
    ru: &mut Ru,
    intake: &mut Intake,
    coming: &mut Coming<'_, G>,
    meters: &mut Meters<'_>,
    out: &mut A,
) -> Result<(), AirFault>
    requires kept { IsKept F.pre F.post du.now }
    requires tone { AnswersBy (F.post (closure_of du.now)) (tone_of doc.now.source) }
    requires document { IsReplayable doc.now }
    requires moment { AtMoment G.pre G.post doc.now tick.0 ru.old intake.old coming.old meters.old }
    requires ended { tick.0 ≤ℤ end_of_time }
    ensures heard { OnOk result (A.grew doc.now.config (events_before doc.now tick.0) out.old (events_at doc.now.config (traffic_of doc.now) tick.0) out.new) }
    ensures moment { OnOk result (AtMoment G.pre G.post doc.now (tick.0 +ℤ pos 1) ru.new intake.new coming.new meters.new) }
    ensures stop { IsErrOf result Failed → StopsBehind (A.grew doc.now.config (events_before doc.now tick.0)) (A.stopped Failed) (λ told. IsInStep doc.now told ru.new intake.new) (events_before doc.now tick.0) (events_at doc.now.config (traffic_of doc.now) tick.0) out.old out.new }
    ensures wants { IsErrOf result WantsMemory → HaltsBehind (A.grew doc.now.config (events_before doc.now tick.0)) (A.stopped WantsMemory) (λ told. IsInStep doc.now told ru.new intake.new) (events_before doc.now tick.0) (events_at doc.now.config (traffic_of doc.now) tick.0) out.old out.new }
    ensures same { A.same out.old out.new }
    ensures cause { HasAirCause (A.faults out.old) (A.faults out.new) result }
{
    meters.begin(tick)?;
    land(doc, tick, du, ru, intake, coming, meters, out)?;
    send_both(tick, coming, meters)?;
    Ok(())
}

/// Lets time pass to the end.
pub(crate) fn pass<A: ListeningAir, F: Fn(RePlace) -> Wide, G: Fn(RePlace) -> Wide>(
    doc: &Document,
    du: &Samples<F>,
    ru: &mut Ru,
    intake: &mut Intake,
    coming: &mut Coming<'_, G>,
    meters: &mut Meters<'_>,
    out: &mut A,
) -> Result<(), AirFault>
    requires kept { IsKept F.pre F.post du.now }
    requires tone { AnswersBy (F.post (closure_of du.now)) (tone_of doc.now.source) }
    requires document { IsReplayable doc.now }
    requires moment { AtMoment G.pre G.post doc.now first_clock ru.old intake.old coming.old meters.old }
    ensures heard { OnOk result (A.grew doc.now.config [] out.old (events_before doc.now (end_of_time +ℤ pos 1)) out.new) }
    ensures over { OnOk result (AtTurn doc.now (end_of_time +ℤ pos 1) ru.new intake.new) }
    ensures measured { OnOk result (MeasuresWait doc.now (end_of_time +ℤ pos 1) meters.new) }
    ensures stop { IsErrOf result Failed → StopsBehind (A.grew doc.now.config []) (A.stopped Failed) (λ told. IsInStep doc.now told ru.new intake.new) [] (events_before doc.now (end_of_time +ℤ pos 1)) out.old out.new }
    ensures wants { IsErrOf result WantsMemory → HaltsBehind (A.grew doc.now.config []) (A.stopped WantsMemory) (λ told. IsInStep doc.now told ru.new intake.new) [] (events_before doc.now (end_of_time +ℤ pos 1)) out.old out.new }
    ensures same { A.same out.old out.new }
    ensures cause { HasAirCause (A.faults out.old) (A.faults out.new) result }
{
    let mut now = FIRST_CLOCK;
    while let Some(tick) = next_moment(ru, intake, coming, meters) {
        let in_order = is_up_to(now, tick);
        prove!(in_order);
        now = tick_after(tick);
        moment(doc, tick, du, ru, intake, coming, meters, out)?;
    }
    Ok(())
}
