// What is told of a frame, and its copies.
ghost use Rattle.std.specs.Prelude.{◌≡◌, ◌≢◌, min, slice_index};
ghost use Rattle.document_traffic.specs.Sending.{class_of};
ghost use Rattle.fh_document.specs.Proper.{IsDocument};
ghost use Rattle.fh_document.specs.declared.delivered.TrafficClass.TheVariants.{M};
ghost use Rattle.frame_ways.specs.Copies.{copies_of as copies_in};
ghost use Rattle.plan_model.specs.Sent.{SentFrame};
ghost use Rattle.du_scheduler.specs.Kept.{placed_line};
ghost use Rattle.document_texts.specs.Frames.{IsTabled, IsTurnFor};
ghost use Rattle.document_texts.specs.Rows.{line_for};

use crate::lines::FrameLine;
use crate::sizes::{line_at, piece_of};
use arrayvec::ArrayVec;
use du_scheduler::{PlacedLine, Table, Turn};
use fh_base::List;
use fh_document::{Document, TrafficClass};
use frame_ways::FrameDeliveries;
use plan_model::{PlannedLine, Stream};

/// The class of a stream's frames.
pub(crate) fn class_of(stream: Stream) -> TrafficClass
    ensures value { result ≡ class_of stream }
    ensures counted { result ≢ M }
{
    match stream {
        Stream::DownCommands | Stream::UpCommands => TrafficClass::C,
        Stream::DownData | Stream::UpData => TrafficClass::U,
    }
}

/// The number in the document of the plan line with this place.
fn line_number(numbers: &List<usize>, place: usize) -> usize
    ensures { result ≡ slice_index numbers.now place }
{
    match numbers.get(place) {
        Some(number) => *number,
        None => 0,
    }
}

/// The plan line of the first part of a frame's message, at its endpoint.
fn planned_line(document: &Document, turn: &Turn, first: PlacedLine) -> PlannedLine
    requires frame { (f : SentFrame) × IsTurnFor document.now f turn.now × (first ≡ placed_line f.message.first) }
    ensures { (f : SentFrame) → IsTurnFor document.now f turn.now → first ≡ placed_line f.message.first → result ≡ f.message.first.planned }
{
    let place = first.line as usize;
    let ep = turn.endpoint as usize;
    PlannedLine {
        index: place,
        ep,
        endpoint: document.config.endpoints.as_slice()[ep],
        line: line_at(&document.plan, place),
    }
}

/// What is told of a turn's frame, which has this number in its class.
pub(crate) fn told(document: &Document, table: &Table, turn: &Turn, number: u64) -> FrameLine
    requires { IsTabled document.now table.now turn.now }
    ensures { (f : SentFrame) → IsTurnFor document.now f turn.now → result ≡ line_for document.now number f }
{
    let parts = table.message(turn);
    let first = parts[0];
    let p = planned_line(document, turn, first);
    let piece = piece_of(document, &p, parts, turn);
    FrameLine {
        class: class_of(turn.stream),
        number,
        at: turn.at,
        id: p.endpoint.id,
        slot: p.line.slot,
        symbol: first.symbol,
        line: line_number(&document.plan_lines, p.index),
        field: piece.field,
        bytes: piece.bytes,
        kind: p.line.kind,
    }
}

/// A number as 32 bits hold it: a greater one is the greatest.
fn capped(number: u64) -> u32
    ensures { result ≡ min number 4294967295 }
{
    number.min(u64::from(u32::MAX)) as u32
}

/// How many nanoseconds each copy of the frame with this number in its class is on its way. No line of a document names a number of
/// more than 32 bits.
pub(crate) fn copies_of(
    deliveries: &FrameDeliveries<'_>,
    class: TrafficClass,
    number: u64,
) -> ArrayVec<i64, 8>
    requires { IsDocument deliveries.now.document }
    ensures { result.items ≡ copies_in deliveries.now.document deliveries.now.side class number }
{
    deliveries.copies(class, capped(number))
}
