// What one unit of a shared cell writes, and what it adds.
ghost use Rattle.std.specs.Prelude.{◌≡◌, ◌++◌, OnOk, IfOk};
ghost use Rattle.std.specs.Io.KnownBytes.{append_known};
ghost use Rattle.document_traffic.specs.Sending.{sent_for};
ghost use Rattle.du_scheduler.specs.Plans.{HasToSend};
ghost use Rattle.fh_base.specs.Told.{WritesFront};
ghost use Rattle.fh_document.specs.Proper.{IsDocument};
ghost use Rattle.fronthaul_replay.specs.Replaying.{events_of};
ghost use Rattle.document_texts.specs.Faults.{HasShareCause};
ghost use Rattle.document_texts.specs.Shared.{lines_with, unit_lines};
ghost use Rattle.document_texts.specs.UnitText.{all_taken};
ghost use Rattle.document_texts.specs.Units.{unit_of};

use crate::faults::ShareFault;
use crate::unit_air::UnitAir;
use crate::unit_documents::unit_document;
use du_scheduler::Plan;
use fh_base::{NoMemory, Sink};
use fh_document::Document;
use fronthaul_replay::{check_plan, replay_to};
use shared_cell::Mixer;
use std::alloc::Global;

/// The plan of a unit's document. It is valid where the cell's is, so want of memory alone keeps it back.
fn unit_plan(alloc: Global, document: &Document) -> Result<Plan, NoMemory>
    requires { IsDocument document.now }
    ensures { IfOk result (HasToSend document.now.config document.now.plan (sent_for document.now)) }
{
    match check_plan(alloc, document) {
        Ok(plan) => Ok(plan),
        Err(_) => Err(NoMemory),
    }
}

/// Replays a unit's document: writes the line above it, the cells that it radiates and its counters, and adds up what is taken in.
fn write_unit<K: Sink>(
    alloc: Global,
    document: &Document,
    plan: Plan,
    unit: u8,
    mixer: &mut Mixer,
    out: &mut K,
) -> Result<(), ShareFault>
    requires document { IsDocument document.now }
    requires plan { HasToSend document.now.config document.now.plan (sent_for document.now) plan }
    ensures front { WritesFront (K.written out.old) (K.written out.new) (lines_with unit (events_of document.now)) }
    ensures done { OnOk result (K.written out.new ≡ append_known (K.written out.old) (lines_with unit (events_of document.now))) }
    ensures mixed { OnOk result (mixer.new ≡ all_taken (events_of document.now) mixer.old) }
    ensures cause { HasShareCause (K.faults out.old) (K.faults out.new) result }
{
    let mut air = UnitAir::new(out, mixer);
    air.begin(unit)?;
    replay_to(alloc, document, plan, &mut air)?;
    air.finish().map_err(ShareFault::from)
}

/// Writes what a unit of a shared cell radiates and counts, and adds up what is taken in.
pub(crate) fn share_unit<K: Sink>(
    alloc: Global,
    doc: &Document,
    unit: u8,
    step: u32,
    mixer: &mut Mixer,
    out: &mut K,
) -> Result<(), ShareFault>
    requires { IsDocument doc.now }
    ensures front { WritesFront (K.written out.old) (K.written out.new) (unit_lines doc.now step unit) }
    ensures done { OnOk result (K.written out.new ≡ append_known (K.written out.old) (unit_lines doc.now step unit)) }
    ensures mixed { OnOk result (mixer.new ≡ all_taken (events_of (unit_of doc.now unit step)) mixer.old) }
    ensures cause { HasShareCause (K.faults out.old) (K.faults out.new) result }
{
    let document = unit_document(alloc, doc, unit, step)?;
    let plan = unit_plan(alloc, &document)?;
    write_unit(alloc, &document, plan, unit, mixer, out)
}
