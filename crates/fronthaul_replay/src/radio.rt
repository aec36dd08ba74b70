// The radio unit's part of a moment.
ghost use Rattle.std.specs.Prelude.{◌≡◌, pos, ◌+ℤ◌, ◌-ℤ◌, ◌≤ℤ◌, List, [], ◌∷◌, All, IfErr, IsErrOf, OnOk, map};
ghost use Rattle.air_source.specs.Answers.{AnswersBy};
ghost use Rattle.air_source.specs.Causes.{HasAirCause};
ghost use Rattle.air_source.specs.Kept.{IsKept, closure_of};
ghost use Rattle.air_source.specs.declared.airs.AirFault.TheVariants.{Failed, NoMemory as WantsMemory};
ghost use Rattle.air_source.specs.declared.events.Event.TheVariants.{Cell as Reported};
ghost use Rattle.air_source.specs.declared.events.Side.TheVariants.{Ru as AtRu};
ghost use Rattle.frame_ways.specs.Landing.{landing_at};
ghost use Rattle.frame_ways.specs.Leaving.{Leaving};
ghost use Rattle.document_traffic.specs.Replayed.{landings_for, made_at};
ghost use Rattle.document_traffic.specs.Settings.{compensation_of};
ghost use Rattle.document_traffic.specs.Laws.{IsReplayable};
ghost use Rattle.replay_laws.specs.Moments.{end_of_time};
ghost use Rattle.air_source.specs.Tones.{tone_of};
ghost use Rattle.ru_buffers.specs.Calls.{HasGivenPast, StandsFor, StandsForSome, StopsAtDue, radio_clock};
ghost use Rattle.ru_buffers.specs.Reporting.{due_of};
ghost use Rattle.unit_model.specs.Meetings.{Arrival};
ghost use Rattle.unit_model.specs.Proper.{IsTime};
ghost use Rattle.unit_model.specs.Standing.{History, at_clock, heard, owed_until};
ghost use Rattle.unit_moments.specs.Heard.{HeardAnyhow};
ghost use Rattle.window_config.specs.declared.config.Config.{Config};
ghost use Rattle.fronthaul_replay.specs.Down.{HasLandedDown, WaitsDown};
ghost use Rattle.fronthaul_replay.specs.BoxTurns.{AtRadioTurn, HasRadioLanded, IsRadioInStep, events_before, radio_events};
ghost use Rattle.fronthaul_replay.specs.Waiting.{LandsAfter, Waits, begun_at};
ghost use Rattle.unit_moments.specs.Stops.{HaltsBehind, StopsBehind};
ghost use Rattle.delay_exchange.specs.Units.{HasDoings};

use crate::downlink::Downlink;
use air_source::{AirFault, RePlace, Samples, Side};
use bfp_codec::Wide;
use delay_exchange::UnitMeter;
use fh_base::Ticks;
use fh_document::Document;
use frame_sending::send_due;
use frame_ways::{FramePool, Way};
use ru_buffers::Ru;
use unit_moments::{ListeningAir, Reports, land};

/// Tells what listens to the radio unit its cells up to a time, as [`Ru::advance`] does an air.
fn advance<A: ListeningAir>(ru: &mut Ru, to: Ticks, out: &mut A) -> Result<(), AirFault>
    requires unit { StandsForSome ru.old }
    requires given { HasGivenPast ru.old }
    requires order { (radio_clock ru.old).0 ≤ℤ to.0 }
    requires time { IsTime to.0 }
    ensures heard { (c : Config) (h : History) → StandsFor c ru.old h → OnOk result (HeardAnyhow A.grew out.old (map Reported (due_of c h to.0)) out.new) }
    ensures stands { (c : Config) (h : History) → StandsFor c ru.old h → OnOk result (StandsFor c ru.new (at_clock (heard h (due_of c h to.0)) to.0)) }
    ensures clock { OnOk result (radio_clock ru.new ≡ to) }
    ensures stop { (c : Config) (h : History) → StandsFor c ru.old h → IfErr result (λ f. StopsAtDue (HeardAnyhow A.grew) (A.stopped f) c h to.0 ru.new out.old out.new) }
    ensures past { (c : Config) (h : History) → StandsFor c ru.old h → owed_until c h (to.0 -ℤ pos 1) ≡ [] → OnOk result (HasGivenPast ru.new) }
    ensures same { A.same out.old out.new }
    ensures cause { HasAirCause (A.faults out.old) (A.faults out.new) result }
{
    ru.advance(to, &mut Reports::to(out))
}

/// The radio unit's cells of a moment are told, and all that lands at it then, where the plan's frames of the moment have left.
fn radio_lands<A: ListeningAir>(
    doc: &Document,
    tick: Ticks,
    ru: &mut Ru,
    meter: &mut UnitMeter,
    way: &mut Way<'_>,
    pool: &mut FramePool,
    out: &mut A,
) -> Result<(), AirFault>
    requires document { IsReplayable doc.now }
    requires turn { AtRadioTurn doc.now tick.0 ru.old }
    requires waits { (left : List Leaving) × All (LandsAfter tick.0) left × Waits doc.now AtRu tick.0 left way.old }
    requires begun { HasDoings (compensation_of doc.now AtRu) (begun_at doc.now AtRu tick.0) meter.old }
    requires late { (a : Arrival) (more : List Arrival) → landing_at (landings_for AtRu doc.now) tick.0 ≡ a ∷ more → pos 0 ≤ℤ tick.0 }
    requires ended { tick.0 ≤ℤ end_of_time }
    ensures heard { OnOk result (A.grew doc.now.config (events_before doc.now tick.0) out.old (radio_events doc.now tick.0) out.new) }
    ensures landed { OnOk result (HasRadioLanded doc.now tick.0 ru.new) }
    ensures waits { (left : List Leaving) → All (LandsAfter tick.0) left → Waits doc.now AtRu tick.0 left way.old → OnOk result (Waits doc.now AtRu (tick.0 +ℤ pos 1) left way.new) }
    ensures made { OnOk result (HasDoings (compensation_of doc.now AtRu) (made_at doc.now AtRu tick.0) meter.new) }
    ensures stop { IsErrOf result Failed → StopsBehind (A.grew doc.now.config (events_before doc.now tick.0)) (A.stopped Failed) (λ told. IsRadioInStep doc.now told ru.new) (events_before doc.now tick.0) (radio_events doc.now tick.0) out.old out.new }
    ensures wants { IsErrOf result WantsMemory → HaltsBehind (A.grew doc.now.config (events_before doc.now tick.0)) (A.stopped WantsMemory) (λ told. IsRadioInStep doc.now told ru.new) (events_before doc.now tick.0) (radio_events doc.now tick.0) out.old out.new }
    ensures same { A.same out.old out.new }
    ensures cause { HasAirCause (A.faults out.old) (A.faults out.new) result }
{
    advance(ru, tick, out)?;
    land(Side::Ru, tick, ru, meter, way, pool, out)
}

/// What happens at the radio unit at one time, once its measurements of the time have begun: the plan's frames that leave then go on their
/// way, its cells are told, and the frames that land, each with the delays that it makes known.
pub(crate) fn radio_moment<A: ListeningAir, F: Fn(RePlace) -> Wide>(
    doc: &Document,
    tick: Ticks,
    du: &Samples<F>,
    ru: &mut Ru,
    meter: &mut UnitMeter,
    downlink: &mut Downlink<'_>,
    out: &mut A,
) -> Result<(), AirFault>
    requires kept { IsKept F.pre F.post du.now }
    requires tone { AnswersBy (F.post (closure_of du.now)) (tone_of doc.now.source) }
    requires document { IsReplayable doc.now }
    requires turn { AtRadioTurn doc.now tick.0 ru.old }
    requires waits { WaitsDown doc.now tick.0 downlink.old.plan downlink.old.way }
    requires begun { HasDoings (compensation_of doc.now AtRu) (begun_at doc.now AtRu tick.0) meter.old }
    requires ended { tick.0 ≤ℤ end_of_time }
    ensures heard { OnOk result (A.grew doc.now.config (events_before doc.now tick.0) out.old (radio_events doc.now tick.0) out.new) }
    ensures landed { OnOk result (HasRadioLanded doc.now tick.0 ru.new) }
    ensures waits { OnOk result (HasLandedDown doc.now tick.0 downlink.new.plan downlink.new.way) }
    ensures made { OnOk result (HasDoings (compensation_of doc.now AtRu) (made_at doc.now AtRu tick.0) meter.new) }
    ensures stop { IsErrOf result Failed → StopsBehind (A.grew doc.now.config (events_before doc.now tick.0)) (A.stopped Failed) (λ told. IsRadioInStep doc.now told ru.new) (events_before doc.now tick.0) (radio_events doc.now tick.0) out.old out.new }
    ensures wants { IsErrOf result WantsMemory → HaltsBehind (A.grew doc.now.config (events_before doc.now tick.0)) (A.stopped WantsMemory) (λ told. IsRadioInStep doc.now told ru.new) (events_before doc.now tick.0) (radio_events doc.now tick.0) out.old out.new }
    ensures same { A.same out.old out.new }
    ensures cause { HasAirCause (A.faults out.old) (A.faults out.new) result }
{
    send_due(
        tick,
        du,
        &mut downlink.plan,
        &mut downlink.pool,
        &mut downlink.way,
    )?;
    radio_lands(
        doc,
        tick,
        ru,
        meter,
        &mut downlink.way,
        &mut downlink.pool,
        out,
    )
}
