// What is before and after the cells: the head, the bands, the legend.
ghost use Rattle.std.specs.Prelude.{◌≡◌, ◌++◌, ◌^◌, ◌<◌, ◌≤◌, length, IfOk, OnOk};
ghost use Rattle.fh_base.specs.Numbering.{slots_of};
ghost use Rattle.pictures.specs.Bands.{scs_name, slot_name, way_name, slot_text, slots_text, lines_text, label_text, note_text, band_text, block_text, bands_text, count_name, span_title, title_text, from_text, column_text, columns_text, head_text, entry_text, first_text, second_text, third_text, legend_text, hint_text, foot_text};
ghost use Rattle.pictures.specs.Spans.{IsSpan};

use crate::endpoints::Endpoint;
use crate::frames::slot_begin;
use crate::opening::{put_closing, put_opening};
use crate::paths::put_down;
use crate::rects::{Area, put_rect};
use crate::sizes::{block_of, height_of, legend_of, step_of};
use crate::spans::{Span, begin_of, x_after};
use crate::texts::{Anchor, put_text};
use fh_base::{Bytes, Line, NANOSECOND, NoMemory, SUBFRAME, code, shape};
use std::alloc::Global;

/// The spacing of subcarriers in kHz.
fn scs_name(e: &Endpoint) -> &'static [u8]
    ensures name { result.now ≡ scs_name e.now }
    ensures short { length result.now ≤ 4 }
{
    match code(&e.numerology) {
        0 => b"15",
        1 => b"30",
        2 => b"60",
        3 => b"120",
        4 => b"240",
        12 => b"1.25",
        _ => b"5",
    }
}

/// The class of the line at which a slot begins, by its number in the subframe.
fn slot_name(slot: u8) -> &'static [u8]
    ensures name { result.now ≡ slot_name slot }
    ensures short { length result.now ≤ 16 }
{
    if slot == 0 { b"frame" } else { b"slot" }
}

fn way_name(up: bool) -> &'static [u8]
    ensures name { result.now ≡ way_name up }
    ensures short { length result.now ≤ 3 }
{
    if up { b" ul" } else { b" dl" }
}

/// Appends the line at which a slot of a subframe begins.
#[tactic(auto, unfolding(crate::specs::Bands::slot_text))]
fn put_slot(
    to: &mut Bytes,
    span: Span,
    e: &Endpoint,
    y: u32,
    subframe: u8,
    slot: u8,
) -> Result<(), NoMemory>
    requires span { IsSpan span }
    requires subframe { subframe < span.count }
    requires slot { slot < slots_of e.now.numerology }
    ensures { OnOk result (to.new ≡ to.old ++ slot_text span e.now y subframe slot) }
{
    let after = u64::from(subframe) * SUBFRAME + slot_begin(&e.numerology, slot);
    put_down(to, slot_name(slot), x_after(span, after), y, height_of(e))
}

/// Appends the lines at which the slots of a subframe begin.
#[tactic(auto, unfolding(crate::specs::Bands::slots_text))]
fn put_slots(to: &mut Bytes, span: Span, e: &Endpoint, y: u32, subframe: u8) -> Result<(), NoMemory>
    requires span { IsSpan span }
    requires subframe { subframe < span.count }
    ensures { OnOk result (to.new ≡ to.old ++ slots_text span e.now y subframe) }
{
    for slot in 0..shape(&e.numerology).slots {
        put_slot(to, span, e, y, subframe, slot)?;
    }
    Ok(())
}

/// Appends the lines at which slots begin.
#[tactic(auto, unfolding(crate::specs::Bands::lines_text))]
fn put_lines(to: &mut Bytes, span: Span, e: &Endpoint, y: u32) -> Result<(), NoMemory>
    requires { IsSpan span }
    ensures { OnOk result (to.new ≡ to.old ++ lines_text span e.now y) }
{
    for subframe in 0..span.count {
        put_slots(to, span, e, y, subframe)?;
    }
    Ok(())
}

/// Appends what is beside a band: the endpoint's id and the way.
#[tactic(auto, unfolding(crate::specs::Bands::label_text))]
fn put_label(to: &mut Bytes, e: &Endpoint, y: u32, up: bool) -> Result<(), NoMemory>
    requires { y < 2 ^ 31 }
    ensures { OnOk result (to.new ≡ to.old ++ label_text e.now y up) }
{
    let mut line = Line::new();
    line.text(&e.id);
    line.text(way_name(up));
    put_text(to, 110, y + 12, false, Anchor::End, line.as_slice())
}

/// Appends what is below it: the PRBs and the spacing of the subcarriers.
#[tactic(auto, unfolding(crate::specs::Bands::note_text))]
fn put_note(to: &mut Bytes, e: &Endpoint, y: u32) -> Result<(), NoMemory>
    requires { y < 2 ^ 31 }
    ensures { OnOk result (to.new ≡ to.old ++ note_text e.now y) }
{
    let mut line = Line::new();
    line.number(u64::from(e.prbs));
    line.text(b" PRB, ");
    line.text(scs_name(e));
    line.text(b" kHz");
    put_text(to, 110, y + 25, true, Anchor::End, line.as_slice())
}

/// Appends the band of one way of an endpoint.
#[tactic(auto, unfolding(crate::specs::Bands::band_text))]
fn put_band(to: &mut Bytes, span: Span, e: &Endpoint, y: u32, up: bool) -> Result<(), NoMemory>
    requires span { IsSpan span }
    requires small { y < 2 ^ 31 }
    ensures { OnOk result (to.new ≡ to.old ++ band_text span e.now y up) }
{
    let panel = Area {
        x: 118,
        y,
        width: 1_120,
        height: height_of(e),
    };
    put_rect(to, b"panel", panel)?;
    put_lines(to, span, e, y)?;
    put_label(to, e, y, up)?;
    put_note(to, e, y)
}

/// Appends both bands of an endpoint.
#[tactic(auto, unfolding(crate::specs::Bands::block_text))]
fn put_block(to: &mut Bytes, span: Span, e: &Endpoint, y: u32) -> Result<(), NoMemory>
    requires span { IsSpan span }
    requires small { y < 2 ^ 30 }
    ensures { OnOk result (to.new ≡ to.old ++ block_text span e.now y) }
{
    put_band(to, span, e, y, false)?;
    put_band(to, span, e, y + step_of(e), true)
}

/// Appends the bands of all endpoints.
#[tactic(auto, unfolding(crate::specs::Bands::bands_text))]
fn put_bands(to: &mut Bytes, span: Span, endpoints: &[Endpoint]) -> Result<(), NoMemory>
    requires span { IsSpan span }
    requires few { length endpoints.now ≤ 16 }
    ensures { OnOk result (to.new ≡ to.old ++ bands_text span 62 endpoints.now) }
{
    let mut y = 62;
    for e in endpoints {
        put_block(to, span, e, y)?;
        y += block_of(e);
    }
    Ok(())
}

/// What so many subframes are called.
fn count_name(count: u8) -> &'static [u8]
    ensures name { result.now ≡ count_name count }
    ensures short { length result.now ≤ 10 }
{
    if count == 1 {
        b" subframe"
    } else {
        b" subframes"
    }
}

/// The title of the picture.
#[tactic(auto, unfolding(crate::specs::Bands::span_title))]
fn span_title(span: Span) -> Line
    ensures { result ≡ span_title span }
{
    let mut line = Line::new();
    line.text(b"Resource grid: frame ");
    line.number(u64::from(span.frame));
    line.text(b", subframe ");
    line.number(u64::from(span.subframe));
    line.text(b", ");
    line.number(u64::from(span.count));
    line.text(count_name(span.count));
    line
}

/// Appends the first four lines.
#[tactic(auto, unfolding(crate::specs::Bands::title_text))]
fn put_title(to: &mut Bytes, span: Span, legend: u32) -> Result<(), NoMemory>
    requires { legend < 2 ^ 31 }
    ensures { OnOk result (to.new ≡ to.old ++ title_text span legend) }
{
    let line = span_title(span);
    put_opening(to, 1_260, legend + 54, line.as_slice())
}

/// Appends what is said above the columns.
#[tactic(auto, unfolding(crate::specs::Bands::from_text))]
fn put_from(to: &mut Bytes, span: Span) -> Result<(), NoMemory>
    requires { IsSpan span }
    ensures { OnOk result (to.new ≡ to.old ++ from_text span) }
{
    let mut line = Line::new();
    line.text(b"from ");
    line.number(begin_of(span) / NANOSECOND);
    line.text(
        b" ns on, a column for each subframe (FRAME.SUBFRAME); PRB 0 at the bottom of each band; hatched: no command was accepted, so nothing was to radiate",
    );
    put_text(to, 118, 40, true, Anchor::Start, line.as_slice())
}

/// Appends the number of a subframe above its column.
#[tactic(auto, unfolding(crate::specs::Bands::column_text))]
fn put_column(to: &mut Bytes, span: Span, k: u8) -> Result<(), NoMemory>
    requires span { IsSpan span }
    requires k { k < span.count }
    ensures { OnOk result (to.new ≡ to.old ++ column_text span k) }
{
    let number = span.subframe + k;
    let mut line = Line::new();
    line.number(u64::from(span.frame) + u64::from(number / 10));
    line.text(b".");
    line.number(u64::from(number % 10));
    let x = x_after(span, u64::from(k) * SUBFRAME);
    put_text(to, x, 56, true, Anchor::Start, line.as_slice())
}

/// Appends the numbers of the subframes.
#[tactic(auto, unfolding(crate::specs::Bands::columns_text))]
fn put_columns(to: &mut Bytes, span: Span) -> Result<(), NoMemory>
    requires { IsSpan span }
    ensures { OnOk result (to.new ≡ to.old ++ columns_text span) }
{
    for k in 0..span.count {
        put_column(to, span, k)?;
    }
    Ok(())
}

/// What is before the cells.
#[tactic(auto, unfolding(crate::specs::Bands::head_text))]
pub(crate) fn head_of(alloc: Global, span: Span, endpoints: &[Endpoint]) -> Result<Bytes, NoMemory>
    requires span { IsSpan span }
    requires few { length endpoints.now ≤ 16 }
    ensures { IfOk result (λ head. head ≡ head_text span endpoints.now) }
{
    let mut head = Bytes::new(alloc);
    put_title(&mut head, span, legend_of(endpoints))?;
    put_from(&mut head, span)?;
    put_columns(&mut head, span)?;
    put_bands(&mut head, span, endpoints)?;
    Ok(head)
}

/// Appends a class and its name to the legend.
#[tactic(auto, unfolding(crate::specs::Bands::entry_text))]
fn put_entry(to: &mut Bytes, x: u32, y: u32, class: &[u8], name: &[u8]) -> Result<(), NoMemory>
    requires x { x < 2 ^ 31 }
    requires y { y < 2 ^ 31 }
    requires short { length class.now ≤ 16 }
    ensures { OnOk result (to.new ≡ to.old ++ entry_text x y class.now name.now) }
{
    let area = Area {
        x,
        y,
        width: 12,
        height: 12,
    };
    put_rect(to, class, area)?;
    put_text(to, x + 17, y + 10, false, Anchor::Start, name)
}

/// Appends the first entries of the legend.
#[tactic(auto, unfolding(crate::specs::Bands::first_text))]
fn put_first(to: &mut Bytes, y: u32) -> Result<(), NoMemory>
    requires { y < 2 ^ 31 }
    ensures { OnOk result (to.new ≡ to.old ++ first_text y) }
{
    put_entry(to, 10, y, b"shown-dl", b"radiates")?;
    put_entry(to, 98, y, b"shown-ul", b"taken in")?;
    put_entry(to, 186, y, b"late", b"late")?;
    put_entry(to, 246, y, b"early", b"early")?;
    put_entry(to, 313, y, b"unfinished", b"fragment missing")
}

/// Appends the next entries.
#[tactic(auto, unfolding(crate::specs::Bands::second_text))]
fn put_second(to: &mut Bytes, y: u32) -> Result<(), NoMemory>
    requires { y < 2 ^ 31 }
    ensures { OnOk result (to.new ≡ to.old ++ second_text y) }
{
    put_entry(to, 457, y, b"other", b"another section id")?;
    put_entry(to, 615, y, b"refused", b"refused or wrong way")?;
    put_entry(to, 787, y, b"repeated", b"sequence id repeated")
}

/// Appends the last entries.
#[tactic(auto, unfolding(crate::specs::Bands::third_text))]
fn put_third(to: &mut Bytes, y: u32) -> Result<(), NoMemory>
    requires { y < 2 ^ 31 }
    ensures { OnOk result (to.new ≡ to.old ++ third_text y) }
{
    put_entry(to, 959, y, b"command", b"command not accepted")?;
    put_entry(to, 1_131, y, b"nodata", b"nothing came")
}

/// Appends the legend.
#[tactic(auto, unfolding(crate::specs::Bands::legend_text))]
fn put_legend(to: &mut Bytes, y: u32) -> Result<(), NoMemory>
    requires { y < 2 ^ 31 }
    ensures { OnOk result (to.new ≡ to.old ++ legend_text y) }
{
    put_first(to, y)?;
    put_second(to, y)?;
    put_third(to, y)
}

/// Appends what may be done with the picture.
#[tactic(auto, unfolding(crate::specs::Bands::hint_text))]
fn put_hint(to: &mut Bytes, y: u32) -> Result<(), NoMemory>
    requires { y < 2 ^ 31 }
    ensures { OnOk result (to.new ≡ to.old ++ hint_text y) }
{
    put_text(
        to,
        118,
        y + 34,
        true,
        Anchor::Start,
        b"Point at a coloured cell for its line of explain. Blue radiates, green was taken in; every other colour is a cell that is missing or silent.",
    )
}

/// What is after the cells.
#[tactic(auto, unfolding(crate::specs::Bands::foot_text))]
pub(crate) fn foot_of(alloc: Global, endpoints: &[Endpoint]) -> Result<Bytes, NoMemory>
    requires { length endpoints.now ≤ 16 }
    ensures { IfOk result (λ foot. foot ≡ foot_text endpoints.now) }
{
    let y = legend_of(endpoints);
    let mut foot = Bytes::new(alloc);
    put_legend(&mut foot, y)?;
    put_hint(&mut foot, y)?;
    put_closing(&mut foot)?;
    Ok(foot)
}
