// The text of a shared cell, written.
ghost use Rattle.std.specs.Prelude.{◌≡◌, ◌<◌, ◌≤◌, ℕ, OnErr, OnOk};
ghost use Rattle.std.specs.Io.KnownBytes.{append_known};
ghost use Rattle.fh_base.specs.Told.{WritesFront, WritesPart};
ghost use Rattle.fh_document.specs.Proper.{IsDocument};
ghost use Rattle.fronthaul_replay.specs.Laws.{IsSound};
ghost use Rattle.plan_model.specs.Valid.{IsValid};
ghost use Rattle.document_texts.specs.Faults.{HasShareCause};
ghost use Rattle.document_texts.specs.Shared.{shared_text};
ghost use Rattle.document_texts.specs.Summed.{IsSummed};
ghost use Rattle.document_texts.specs.Units.{unit_of};

use crate::combined::put_combined;
use crate::faults::ShareFault;
use crate::shared_units::share_unit;
use fh_base::Sink;
use fh_document::Document;
use shared_cell::Mixer;
use std::alloc::Global;

/// Writes what the `count` radio units of a shared cell do with a document, where each is `step` nanoseconds further away than the
/// one before it: for each unit the line `unit R`, its radiated cells and its counters, then `combined`, the line of each combined uplink
/// cell in the order of a report's `ul` lines, and `end`.
///
/// At Ok exactly that text was appended to what `out` holds; after an error a front part of it was, and not all.
///
/// Of every unit the laws of a replay hold: no element radiates twice. Where nothing disturbs any of them, each planned uplink cell
/// counts every unit, and the sum of each element is that of what compression leaves of the units' antenna samples.
///
/// # Errors
///
/// [`ShareFault::WriteFault`] where writing failed, exactly where the sink's count of faults rose. [`ShareFault::NoMemory`] where memory
/// runs out, in the sink too.
pub fn share<K: Sink>(
    alloc: Global,
    doc: &Document,
    count: u8,
    step: u32,
    out: &mut K,
) -> Result<(), ShareFault>
    requires document { IsDocument doc.now }
    requires plan { IsValid doc.now.config doc.now.plan }
    requires low { 2 ≤ count }
    requires high { count ≤ 8 }
    requires step { step ≤ 1000000 }
    ensures front { WritesFront (K.written out.old) (K.written out.new) (shared_text doc.now count step) }
    ensures part { OnErr result (WritesPart (K.written out.old) (K.written out.new) (shared_text doc.now count step)) }
    ensures done { OnOk result (K.written out.new ≡ append_known (K.written out.old) (shared_text doc.now count step)) }
    ensures cause { HasShareCause (K.faults out.old) (K.faults out.new) result }
    ensures sound { (unit : ℕ) → unit < count → IsSound (unit_of doc.now unit step) }
    ensures summed { IsSummed doc.now count step }
{
    let mut mixer = Mixer::make(alloc);
    for unit in 0..count {
        share_unit(alloc, doc, unit, step, &mut mixer, out)?;
    }
    put_combined(&mixer, out).map_err(ShareFault::from)
}
