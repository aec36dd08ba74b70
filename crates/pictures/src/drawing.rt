// The picture of a text, written.
ghost use Rattle.std.specs.Prelude.{◌≡◌, ◌++◌, ◌≤◌, length, OnErr, OnOk};
ghost use Rattle.std.specs.List.{flat_map};
ghost use Rattle.std.specs.Io.KnownBytes.{append_known};
ghost use Rattle.fh_base.specs.Causes.{Counts, HasSinkCause, has_failed};
ghost use Rattle.fh_base.specs.Told.{WritesFront, WritesPart};
ghost use Rattle.line_words.specs.Words.{lines_of};
ghost use Rattle.fh_base.specs.Owed.{Carried};
ghost use Rattle.pictures.specs.Refusals.{Draws, HasDrawCause};
ghost use Rattle.pictures.specs.Bands.{head_text, foot_text};
ghost use Rattle.pictures.specs.Looks.{line_text};
ghost use Rattle.pictures.specs.Picture.{cells_text, grid_picture, drawn, span_of};
ghost use Rattle.pictures.specs.Spans.{IsSpan};

use crate::bands::{foot_of, head_of};
use crate::cells::names_cells;
use crate::endpoints::Endpoint;
use crate::faults::DrawFault;
use crate::looks::put_line;
use crate::reading::read_grid;
use crate::spans::Span;
use fh_base::{Bytes, OwedBytes, Sink, SinkFault};
use line_words::{cut, first_word, without_last_feed};
use std::alloc::Global;

/// Tells what a line draws, by a buffer that is emptied first. A line that is not about cells is passed over by its first word.
fn tell_line<K: Sink>(
    alloc: Global,
    buffer: &mut Bytes,
    span: Span,
    endpoints: &[Endpoint],
    line: &[u8],
    owed: &mut OwedBytes,
    out: &mut K,
) -> Result<(), SinkFault>
    requires span { IsSpan span }
    requires few { length endpoints.now ≤ 16 }
    ensures carried { OnOk result (Carried (K.written out.old) owed.old (line_text span endpoints.now line.now) (K.written out.new) owed.new) }
    ensures front { OnErr result (WritesFront (K.written out.old) (K.written out.new) (owed.old ++ line_text span endpoints.now line.now)) }
    ensures cause { Counts (has_failed result) (K.faults out.old) (K.faults out.new) }
{
    if !names_cells(first_word(line)) {
        return Ok(());
    }
    buffer.clear();
    put_line(alloc, buffer, span, endpoints, line)?;
    owed.tell(buffer.as_slice(), out)
}

/// Tells what the lines of a text draw.
fn tell_lines<K: Sink>(
    alloc: Global,
    span: Span,
    endpoints: &[Endpoint],
    text: &[u8],
    owed: &mut OwedBytes,
    out: &mut K,
) -> Result<(), SinkFault>
    requires span { IsSpan span }
    requires few { length endpoints.now ≤ 16 }
    ensures carried { OnOk result (Carried (K.written out.old) owed.old (cells_text span endpoints.now text.now) (K.written out.new) owed.new) }
    ensures front { OnErr result (WritesFront (K.written out.old) (K.written out.new) (owed.old ++ cells_text span endpoints.now text.now)) }
    ensures cause { Counts (has_failed result) (K.faults out.old) (K.faults out.new) }
{
    let mut buffer = Bytes::new(alloc);
    let mut rest = Some(without_last_feed(text));
    'lines: while let Some(piece) = rest {
        let (line, behind) = cut(b'\n', piece);
        tell_line(alloc, &mut buffer, span, endpoints, line, owed, out)?;
        rest = behind;
    }
    Ok(())
}

/// Tells the cells and what is before and after them, and writes all.
fn write_parts<K: Sink>(
    alloc: Global,
    span: Span,
    endpoints: &[Endpoint],
    text: &[u8],
    head: &[u8],
    foot: &[u8],
    out: &mut K,
) -> Result<(), SinkFault>
    requires span { IsSpan span }
    requires few { length endpoints.now ≤ 16 }
    requires head { head.now ≡ head_text span endpoints.now }
    requires foot { foot.now ≡ foot_text endpoints.now }
    ensures done { OnOk result (K.written out.new ≡ append_known (K.written out.old) (grid_picture span endpoints.now text.now)) }
    ensures part { OnErr result (WritesPart (K.written out.old) (K.written out.new) (grid_picture span endpoints.now text.now)) }
    ensures cause { Counts (has_failed result) (K.faults out.old) (K.faults out.new) }
{
    let mut owed = OwedBytes::new();
    owed.tell(head, out)?;
    tell_lines(alloc, span, endpoints, text, &mut owed, out)?;
    owed.tell(foot, out)?;
    owed.push_out(out)
}

/// Writes the picture of a text that is not refused, by its endpoints.
fn write_picture<K: Sink>(
    alloc: Global,
    span: Span,
    endpoints: &[Endpoint],
    text: &[u8],
    out: &mut K,
) -> Result<(), SinkFault>
    requires span { IsSpan span }
    requires few { length endpoints.now ≤ 16 }
    ensures done { OnOk result (K.written out.new ≡ append_known (K.written out.old) (grid_picture span endpoints.now text.now)) }
    ensures part { OnErr result (WritesPart (K.written out.old) (K.written out.new) (grid_picture span endpoints.now text.now)) }
    ensures cause { Counts (has_failed result) (K.faults out.old) (K.faults out.new) }
{
    let head = head_of(alloc, span, endpoints)?;
    let foot = foot_of(alloc, endpoints)?;
    write_parts(
        alloc,
        span,
        endpoints,
        text,
        head.as_slice(),
        foot.as_slice(),
        out,
    )
}

/// Writes the picture of the resource grid over `count` subframes, from a subframe of a frame on, of a text that the command `explain`
/// wrote.
///
/// The picture has a band for each way of each endpoint, and in it a rectangle for each line of cells with samples, and for each line
/// that says why cells have none, whose symbol begins in these subframes. A picture is a function of the text and of these numbers.
///
/// All lines are tested before anything is written. At Ok exactly the picture was appended to what `out` holds.
///
/// # Errors
///
/// [`DrawFault::Refused`] exactly where a line of the text is refused: it has the first such line and its first reason, and nothing was
/// written. [`DrawFault::WriteFault`] exactly where the sink's count of faults rose, and [`DrawFault::NoMemory`] where memory runs out:
/// a part of the picture was written and not all.
pub fn draw_grid<K: Sink>(
    alloc: Global,
    text: &[u8],
    frame: u32,
    subframe: u8,
    count: u8,
    out: &mut K,
) -> Result<(), DrawFault>
    requires frame { frame ≤ 99999 }
    requires subframe { subframe ≤ 9 }
    requires some { 1 ≤ count }
    requires few { count ≤ 10 }
    ensures draws { Draws (drawn (span_of frame subframe count) text.now) (K.written out.old) (K.written out.new) result }
    ensures cause { HasDrawCause (K.faults out.old) (K.faults out.new) result }
{
    let span = Span {
        frame,
        subframe,
        count,
    };
    match read_grid(text) {
        Err(refusal) => Err(DrawFault::from(refusal)),
        Ok(endpoints) => match write_picture(alloc, span, endpoints.as_slice(), text, out) {
            Ok(()) => Ok(()),
            Err(fault) => Err(DrawFault::from(fault)),
        },
    }
}
