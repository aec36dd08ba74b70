// The text of a document's replay.
ghost use Rattle.std.specs.Prelude.{◌≡◌, ◌≤◌, IfOk, OnErr, OnOk};
ghost use Rattle.std.specs.Io.KnownBytes.{append_known};
ghost use Rattle.document_traffic.specs.Sending.{sent_for};
ghost use Rattle.du_scheduler.specs.Plans.{HasToSend};
ghost use Rattle.fh_base.specs.Told.{WritesFront, WritesPart};
ghost use Rattle.fh_document.specs.Proper.{IsDocument};
ghost use Rattle.fronthaul_replay.specs.Replay.{HasWriteCause};
ghost use Rattle.document_texts.specs.Idle.{IsIdle, cells_for, document_idle};
ghost use Rattle.document_texts.specs.IdleFaults.{text_result};
ghost use Rattle.idle_spans.specs.Tables.{AreFrames, Stands};

use du_scheduler::Plan;
use fh_base::{NoMemory, Sink, SinkFault};
use fh_document::Document;
use fronthaul_replay::{TextFault, replay_to};
use idle_spans::Spans;
use idle_text::idle_text;
use std::alloc::Global;

/// The symbols of a document's endpoints in some frames, where each cell of its replay is marked.
fn marked(
    alloc: Global,
    document: &Document,
    plan: Plan,
    first: u32,
    last: u32,
) -> Result<Spans, NoMemory>
    requires document { IsDocument document.now }
    requires plan { HasToSend document.now.config document.now.plan (sent_for document.now) plan }
    requires frames { AreFrames first last }
    ensures { IfOk result (λ s. Stands s document.now.config first last (cells_for document.now)) }
{
    let mut spans = Spans::make(alloc, &document.config, first, last)?;
    match replay_to(alloc, document, plan, &mut spans) {
        Ok(()) => Ok(spans),
        Err(_) => Err(NoMemory),
    }
}

/// What a text's writer answers where its sink answered this.
fn text_result(written: Result<(), SinkFault>) -> Result<(), TextFault>
    ensures { result ≡ text_result written }
{
    match written {
        Ok(()) => Ok(()),
        Err(SinkFault::Failed) => Err(TextFault::WriteFault),
        Err(SinkFault::NoMemory) => Err(TextFault::NoMemory),
    }
}

/// Writes when the endpoints of a document are idle in the frames `first` to `last`, whatever the cause: for each endpoint the spans of
/// at least `min` symbols in which no cell of the radio unit has samples, a plan line of section type 0 for each slot that lies in one of
/// them and that no `dl` or `idle` line of the plan touches, and at the end `end`.
///
/// At Ok exactly that text was appended to what `out` holds; after an error a front part of it was, and not all.
///
/// No listed span holds a radiated element, and no longer one around it does without. The plan with the proposed lines after it is valid;
/// and where nothing disturbs the document with these lines, its cells and blocks are those of the document.
///
/// # Errors
///
/// [`TextFault::WriteFault`] exactly where the sink's count of faults rose. [`TextFault::NoMemory`] where memory runs out, in the sink
/// too.
pub fn write_idle<K: Sink>(
    alloc: Global,
    document: &Document,
    plan: Plan,
    first: u32,
    last: u32,
    min: u32,
    out: &mut K,
) -> Result<(), TextFault>
    requires document { IsDocument document.now }
    requires plan { HasToSend document.now.config document.now.plan (sent_for document.now) plan }
    requires frames { AreFrames first last }
    requires min { 1 ≤ min }
    ensures front { WritesFront (K.written out.old) (K.written out.new) (document_idle document.now first last min) }
    ensures part { OnErr result (WritesPart (K.written out.old) (K.written out.new) (document_idle document.now first last min)) }
    ensures done { OnOk result (K.written out.new ≡ append_known (K.written out.old) (document_idle document.now first last min)) }
    ensures cause { HasWriteCause (K.faults out.old) (K.faults out.new) result }
    ensures laws { IsIdle document.now first last min }
{
    let spans = marked(alloc, document, plan, first, last)?;
    text_result(idle_text(alloc, document, &spans, min, out))
}
