//! The list of what is sent.
ghost use Rattle.std.specs.Prelude.{◌≡◌, ◌++◌, map, OnErr, OnOk};
ghost use Rattle.std.specs.Io.KnownBytes.{append_known};
ghost use Rattle.std.specs.List.{flat_map};
ghost use Rattle.air_source.specs.declared.events.Side.TheVariants.{Ru};
ghost use Rattle.document_traffic.specs.Sending.{lines_of, sent_for};
ghost use Rattle.fh_base.specs.Causes.{Counts, HasSinkCause, has_failed};
ghost use Rattle.fh_base.specs.Told.{WritesFront, WritesPart};
ghost use Rattle.fh_document.specs.Proper.{IsDocument};
ghost use Rattle.frame_ways.specs.Copies.{deliveries_to};
ghost use Rattle.du_scheduler.specs.Queues.{IsQueue, StandsFor};
ghost use Rattle.fh_base.specs.Owed.{Carried};
ghost use Rattle.plan_model.specs.Valid.{IsValid};
ghost use Rattle.du_scheduler.specs.Tables.{IsTable};
ghost use Rattle.document_texts.specs.SentLines.{frame_line_text};
ghost use Rattle.du_scheduler.specs.Runs.{turn_of};
ghost use Rattle.document_texts.specs.SentLaws.{IsListed};
ghost use Rattle.document_texts.specs.Rows.{rows_of};
ghost use Rattle.document_texts.specs.SentText.{row_text, sent_text};

use crate::frames::{class_of, copies_of, told};
use crate::lines::{FrameLine, put_frame_line};
use crate::tally::Tally;
use air_source::Side;
use arrayvec::ArrayVec;
use du_scheduler::{Queue, Table, planned_lines};
use fh_base::{Line, OwedBytes, Sink, SinkFault};
use fh_document::Document;
use frame_ways::FrameDeliveries;
use std::alloc::Global;

/// Tells the line of a frame.
fn tell_line<K: Sink>(
    frame: &FrameLine,
    copies: ArrayVec<i64, 8>,
    owed: &mut OwedBytes,
    out: &mut K,
) -> Result<(), SinkFault>
    ensures carried { OnOk result (Carried (K.written out.old) owed.old (frame_line_text frame.now copies.items) (K.written out.new) owed.new) }
    ensures front { OnErr result (WritesFront (K.written out.old) (K.written out.new) (owed.old ++ frame_line_text frame.now copies.items)) }
    ensures cause { HasSinkCause (K.faults out.old) (K.faults out.new) (K.refusals out.old) (K.refusals out.new) result }
{
    let mut line = Line::new();
    put_frame_line(&mut line, frame, copies.as_slice());
    owed.tell(line.as_slice(), out)
}

/// Tells the lines of all frames of a document's plan, which the queue gives in the order in which they are sent.
fn tell_frames<K: Sink>(
    document: &Document,
    table: &Table,
    deliveries: &FrameDeliveries<'_>,
    queue: &mut Queue,
    owed: &mut OwedBytes,
    out: &mut K,
) -> Result<(), SinkFault>
    requires document { IsDocument document.now }
    requires valid { IsValid document.now.config document.now.plan }
    requires table { IsTable document.now.config (lines_of document.now) table.now }
    requires deliveries { deliveries.now ≡ deliveries_to document.now Ru }
    requires queue { IsQueue queue.old }
    requires stands { StandsFor queue.old (map turn_of (sent_for document.now)) }
    ensures carried { OnOk result (Carried (K.written out.old) owed.old (flat_map row_text (rows_of document.now)) (K.written out.new) owed.new) }
    ensures front { OnErr result (WritesFront (K.written out.old) (K.written out.new) (owed.old ++ flat_map row_text (rows_of document.now))) }
    ensures cause { HasSinkCause (K.faults out.old) (K.faults out.new) (K.refusals out.old) (K.refusals out.new) result }
{
    let mut tally = Tally {
        commands: 0,
        fragments: 0,
    };
    while let Some(turn) = queue.next() {
        let class = class_of(turn.stream);
        let number = tally.count(class);
        let frame = told(document, table, &turn, number);
        tell_line(&frame, copies_of(deliveries, class, number), owed, out)?;
    }
    Ok(())
}

/// Tells the lines of all frames of a document's plan.
fn tell_plan<K: Sink>(
    alloc: Global,
    document: &Document,
    owed: &mut OwedBytes,
    out: &mut K,
) -> Result<(), SinkFault>
    requires document { IsDocument document.now }
    requires valid { IsValid document.now.config document.now.plan }
    ensures carried { OnOk result (Carried (K.written out.old) owed.old (flat_map row_text (rows_of document.now)) (K.written out.new) owed.new) }
    ensures front { OnErr result (WritesFront (K.written out.old) (K.written out.new) (owed.old ++ flat_map row_text (rows_of document.now))) }
    ensures cause { Counts (has_failed result) (K.faults out.old) (K.faults out.new) }
{
    let lines = planned_lines(alloc, document.config.endpoints.as_slice(), &document.plan)?;
    let (table, mut queue) = Table::make(alloc, &document.config, &lines)?;
    let deliveries = FrameDeliveries::make(alloc, document, Side::Ru)?;
    tell_frames(document, &table, &deliveries, &mut queue, owed, out)
}

/// Writes a line for each frame that a document's plan sends to the radio unit, in the order in which they are sent: `sent dl CLASS K T
/// ID F S L Y line=J seq=S sub=B e=E bytes=Z`, then `uplink` for the command of a `ul` line and `idle` for that of an `idle` line, and
/// then `copies NS ..` or `lost`; at the end `end`. `CLASS K` is what a `deliver dl` line names the frame by.
///
/// At Ok exactly that text was appended to what `out` holds; after an error a front part of it was, and not all.
///
/// The lines are all frames that leave for the plan, in their order; and the copies of these, with those of the frames of delay
/// measurement and the injected frames, are all that lands at the radio unit.
///
/// # Errors
///
/// [`SinkFault::Failed`] exactly where the sink's count of faults rose. [`SinkFault::NoMemory`] where memory runs out, in the sink too.
pub fn list_sent<K: Sink>(alloc: Global, document: &Document, out: &mut K) -> Result<(), SinkFault>
    requires document { IsDocument document.now }
    requires valid { IsValid document.now.config document.now.plan }
    ensures done { OnOk result (K.written out.new ≡ append_known (K.written out.old) (sent_text document.now)) }
    ensures front { WritesFront (K.written out.old) (K.written out.new) (sent_text document.now) }
    ensures part { OnErr result (WritesPart (K.written out.old) (K.written out.new) (sent_text document.now)) }
    ensures cause { Counts (has_failed result) (K.faults out.old) (K.faults out.new) }
    ensures laws { IsListed document.now }
{
    let mut owed = OwedBytes::new();
    tell_plan(alloc, document, &mut owed, out)?;
    owed.tell(b"end\n", out)?;
    owed.push_out(out)
}
