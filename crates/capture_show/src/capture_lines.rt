// The lines of a whole capture, told in order.
ghost use Rattle.std.specs.Prelude.{◌≡◌, ◌≤◌, ◌+◌, ◌*◌, ◌<◌, ◌^◌, ◌∷◌, [], length, Ok, OnOk, OnErr};
ghost use Rattle.ecpri_frames.specs.Gathering.{whole_messages};
ghost use Rattle.ecpri_frames.specs.Left.{message_of};
ghost use Rattle.ecpri_frames.specs.Messages.{pdu};
ghost use Rattle.cplane_sections.specs.Tests.{IsHeadOf, checked as command_checked};
ghost use Rattle.capture_records.specs.Records.{arrived_of};
ghost use Rattle.capture_records.specs.Reading.{checked, records_of};
ghost use Rattle.capture_show.specs.Faults.{HasWriteCause};
ghost use Rattle.capture_show.specs.Printing.{Told, Stopped, state_of};
ghost use Rattle.capture_show.specs.Messages.{command_lines, command_read, widest, section_lines, shown_as, message_lines, messages_lines, broken_lines, record_lines, capture_lines};
ghost use Rattle.ecpri_fragments.specs.Sequence.{application};

use crate::command_lines::{
    application, command_line, data_line, id_at, is_fragmented, refused_line, section_line,
    sequence_at,
};
use crate::message_lines::{broken_line, delay_line, frame_line, sized_line};
use crate::printing::Printer;
use crate::values::{Kind, Word};
use capture_records::{Record, records};
use cplane_sections::{CHead, check, sections};
use delay_measure::read_delay;
use ecpri_frames::{IQ_DATA, ONE_WAY_DELAY, PduRefusal, REAL_TIME_CONTROL, WholeMessage, messages};
use fh_base::{Shape, Sink, SinkFault};

/// The most symbols of a slot and slots of a subframe that a command may name.
const WIDEST: Shape = Shape {
    symbols: 14,
    slots: 64,
};

// Tells the sections of a command.
fn tell_sections<K: Sink>(
    head: &CHead,
    bytes: &[u8],
    printer: &mut Printer,
    out: &mut K,
) -> Result<(), SinkFault>
    requires { IsHeadOf head.now bytes.now }
    ensures told { OnOk result (Told (state_of printer.old (K.written out.old)) (state_of printer.new (K.written out.new)) (section_lines head.now bytes.now)) }
    ensures part { OnErr result (Stopped (state_of printer.old (K.written out.old)) (K.written out.new) (section_lines head.now bytes.now)) }
    ensures cause { HasWriteCause (K.faults out.old) (K.faults out.new) result }
{
    for section in sections(bytes, head) {
        printer.tell(&section_line(head.body, &section), out)?;
    }
    Ok(())
}

// Tells a command that is one whole message, and its sections.
fn tell_read<K: Sink>(
    place: usize,
    payload: &[u8],
    printer: &mut Printer,
    out: &mut K,
) -> Result<(), SinkFault>
    requires { 4 ≤ length payload.now }
    ensures told { OnOk result (Told (state_of printer.old (K.written out.old)) (state_of printer.new (K.written out.new)) (command_read place payload.now (command_checked widest (application payload.now)))) }
    ensures part { OnErr result (Stopped (state_of printer.old (K.written out.old)) (K.written out.new) (command_read place payload.now (command_checked widest (application payload.now)))) }
    ensures cause { HasWriteCause (K.faults out.old) (K.faults out.new) result }
{
    let bytes = application(payload);
    let head = match check(bytes, WIDEST) {
        Ok(head) => head,
        Err(refusal) => {
            let line = refused_line(place, refusal.place, Word::Command(refusal.why));
            return printer.tell(&line, out);
        }
    };
    let line = command_line(place, id_at(payload), sequence_at(payload), &head);
    printer.tell(&line, out)?;
    tell_sections(&head, bytes, printer, out)
}

// Tells a command.
fn tell_command<K: Sink>(
    place: usize,
    payload: &[u8],
    printer: &mut Printer,
    out: &mut K,
) -> Result<(), SinkFault>
    requires { 4 ≤ length payload.now }
    ensures told { OnOk result (Told (state_of printer.old (K.written out.old)) (state_of printer.new (K.written out.new)) (command_lines place payload.now)) }
    ensures part { OnErr result (Stopped (state_of printer.old (K.written out.old)) (K.written out.new) (command_lines place payload.now)) }
    ensures cause { HasWriteCause (K.faults out.old) (K.faults out.new) result }
{
    if is_fragmented(sequence_at(payload)) {
        printer.tell(&refused_line(place, 0, Word::Fragmented), out)
    } else {
        tell_read(place, payload, printer, out)
    }
}

// Tells a message by its type.
fn tell_message<K: Sink>(
    m: &WholeMessage<'_>,
    printer: &mut Printer,
    out: &mut K,
) -> Result<(), SinkFault>
    ensures told { OnOk result (Told (state_of printer.old (K.written out.old)) (state_of printer.new (K.written out.new)) (message_lines (message_of m.now))) }
    ensures part { OnErr result (Stopped (state_of printer.old (K.written out.old)) (K.written out.new) (message_lines (message_of m.now))) }
    ensures cause { HasWriteCause (K.faults out.old) (K.faults out.new) result }
{
    let size = m.payload.len();
    match m.head.kind {
        REAL_TIME_CONTROL if size >= 4 => tell_command(m.place, m.payload, printer, out),
        IQ_DATA if size >= 4 => printer.tell(&data_line(m.place, m.payload), out),
        ONE_WAY_DELAY => match read_delay(m.payload) {
            Some(delay) => printer.tell(&delay_line(m.place, delay), out),
            None => printer.tell(&sized_line(Kind::Short, m.place, ONE_WAY_DELAY, size), out),
        },
        kind @ (IQ_DATA | REAL_TIME_CONTROL) => printer.tell(
            &sized_line(Kind::Short, m.place, kind, size),
            out,
        ),
        kind => printer.tell(&sized_line(Kind::Other, m.place, kind, size), out),
    }
}

// Tells the whole messages of a frame.
fn tell_messages<K: Sink>(frame: &[u8], printer: &mut Printer, out: &mut K) -> Result<(), SinkFault>
    ensures told { OnOk result (Told (state_of printer.old (K.written out.old)) (state_of printer.new (K.written out.new)) (messages_lines (whole_messages frame.now))) }
    ensures part { OnErr result (Stopped (state_of printer.old (K.written out.old)) (K.written out.new) (messages_lines (whole_messages frame.now))) }
    ensures cause { HasWriteCause (K.faults out.old) (K.faults out.new) result }
{
    for m in messages(frame) {
        tell_message(&m, printer, out)?;
    }
    Ok(())
}

// Tells the fault of a frame.
fn tell_fault<K: Sink>(
    refusal: Option<PduRefusal>,
    printer: &mut Printer,
    out: &mut K,
) -> Result<(), SinkFault>
    ensures told { OnOk result (Told (state_of printer.old (K.written out.old)) (state_of printer.new (K.written out.new)) (broken_lines refusal)) }
    ensures part { OnErr result (Stopped (state_of printer.old (K.written out.old)) (K.written out.new) (broken_lines refusal)) }
    ensures cause { HasWriteCause (K.faults out.old) (K.faults out.new) result }
{
    match refusal {
        Some(refusal) => printer.tell(&broken_line(refusal), out),
        None => Ok(()),
    }
}

// Tells a record, the number-th from 1.
fn tell_record<K: Sink>(
    number: u64,
    entry: &Record<'_>,
    printer: &mut Printer,
    out: &mut K,
) -> Result<(), SinkFault>
    ensures told { OnOk result (Told (state_of printer.old (K.written out.old)) (state_of printer.new (K.written out.new)) (record_lines number (arrived_of entry.now))) }
    ensures part { OnErr result (Stopped (state_of printer.old (K.written out.old)) (K.written out.new) (record_lines number (arrived_of entry.now))) }
    ensures cause { HasWriteCause (K.faults out.old) (K.faults out.new) result }
{
    printer.tell(&frame_line(number, entry), out)?;
    tell_messages(entry.frame, printer, out)?;
    tell_fault(messages(entry.frame).refusal(), printer, out)
}

/// Tells the records of a capture that passed the tests.
pub fn tell_records<K: Sink>(
    bytes: &[u8],
    printer: &mut Printer,
    out: &mut K,
) -> Result<(), SinkFault>
    requires { checked bytes.now ≡ Ok tt }
    ensures told { OnOk result (Told (state_of printer.old (K.written out.old)) (state_of printer.new (K.written out.new)) (capture_lines bytes.now)) }
    ensures part { OnErr result (Stopped (state_of printer.old (K.written out.old)) (K.written out.new) (capture_lines bytes.now)) }
    ensures cause { HasWriteCause (K.faults out.old) (K.faults out.new) result }
{
    let mut number = 0;
    for entry in records(bytes) {
        number += 1;
        tell_record(number, &entry, printer, out)?;
    }
    Ok(())
}
