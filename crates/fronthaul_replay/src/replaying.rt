// A replay of a document, told to any air.
ghost use Rattle.std.specs.Prelude.{◌≡◌, ◌<◌, [], OnOk, IfErr, IfOk};
ghost use Rattle.air_source.specs.Answers.{Fits16};
ghost use Rattle.document_traffic.specs.Sending.{sent_for};
ghost use Rattle.du_scheduler.specs.Plans.{HasToSend};
ghost use Rattle.air_source.specs.Tones.{tone_of};
ghost use Rattle.fh_document.specs.Proper.{IsDocument};
ghost use Rattle.fronthaul_replay.specs.Laws.{IsSound};
ghost use Rattle.fronthaul_replay.specs.Replay.{HasWriteCause};
ghost use Rattle.fronthaul_replay.specs.Replaying.{events_of};
ghost use Rattle.fronthaul_replay.specs.Cut.{CutBy};
ghost use Rattle.fronthaul_replay.specs.Replaying.{IsReplayable};
ghost use Rattle.du_intake.specs.Calls.{IntakeStandsFor};
ghost use Rattle.fronthaul_replay.specs.IntakeTurns.{planned_for};
ghost use Rattle.unit_model.specs.Standing.{nothing_yet};

use crate::replays::replay_listening;
use crate::report::TextFault;
use air_source::{Air, RePlace, Samples, ToneSteps};
use bfp_codec::Wide;
use du_intake::Intake;
use du_scheduler::{Plan, planned_lines};
use fh_base::NoMemory;
use fh_document::Document;
use ru_buffers::Ru;
use std::alloc::Global;
use unit_moments::ListeningAir;

/// Makes both units of a document and tells an air the document's events; the samples that are sent are those of its `source`, those
/// that the radio unit takes in those of its `antenna`.
pub fn replay_to<A: Air>(
    alloc: Global,
    document: &Document,
    plan: Plan,
    air: &mut A,
) -> Result<(), TextFault>
    requires document { IsDocument document.now }
    requires plan { HasToSend document.now.config document.now.plan (sent_for document.now) plan }
    ensures heard { OnOk result (A.grew air.old (events_of document.now) air.new) }
    ensures cut { IfErr result (λ f. CutBy f A.grew A.stopped (events_of document.now) air.old air.new) }
    ensures cause { HasWriteCause (A.faults air.old) (A.faults air.new) result }
    ensures same { A.same air.old air.new }
    ensures sound { OnOk result (IsSound document.now) }
{
    replay_listening_to(alloc, document, plan, air)
}

/// Makes both units of a document and replays it as [`replay_to`] does, told to what listens to the units.
pub fn replay_listening_to<A: ListeningAir>(
    alloc: Global,
    document: &Document,
    plan: Plan,
    air: &mut A,
) -> Result<(), TextFault>
    requires document { IsDocument document.now }
    requires plan { HasToSend document.now.config document.now.plan (sent_for document.now) plan }
    ensures heard { OnOk result (A.grew document.now.config [] air.old (events_of document.now) air.new) }
    ensures cut { IfErr result (λ f. CutBy f (A.grew document.now.config []) A.stopped (events_of document.now) air.old air.new) }
    ensures cause { HasWriteCause (A.faults air.old) (A.faults air.new) result }
    ensures same { A.same air.old air.new }
    ensures sound { OnOk result (IsSound document.now) }
{
    let mut ru = Ru::make(alloc, &document.config)?;
    let mut intake = intake_of(alloc, document)?;
    let source = ToneSteps::of(document.source);
    let du = Samples::keep(
        |place: RePlace| -> Wide
            requires { place.re < 12 }
            ensures value { result ≡ tone_of source place }
            ensures narrow { Fits16 result }
        { source.at(place) },
    );
    let taken_in = ToneSteps::of(document.antenna);
    let antenna = Samples::keep(
        |place: RePlace| -> Wide
            requires { place.re < 12 }
            ensures value { result ≡ tone_of taken_in place }
            ensures narrow { Fits16 result }
        { taken_in.at(place) },
    );
    replay_listening(
        alloc,
        document,
        plan,
        &mut ru,
        &mut intake,
        du,
        antenna,
        air,
    )?;
    Ok(())
}

/// The distributed unit's intake for a document's plan, as [`replay`] takes it.
///
/// # Errors
///
/// `NoMemory` where memory cannot be had.
pub fn intake_of(alloc: Global, document: &Document) -> Result<Intake, NoMemory>
    requires { IsReplayable document.now }
    ensures { IfOk result (λ u. IntakeStandsFor document.now.config (planned_for document.now) u nothing_yet) }
{
    let lines = planned_lines(alloc, document.config.endpoints.as_slice(), &document.plan)?;
    Intake::make(alloc, &document.config, lines.as_slice())
}
