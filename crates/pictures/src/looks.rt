// What a line draws.
ghost use Rattle.std.specs.Prelude.{◌≡◌, ◌++◌, ◌≤◌, length, IfOk, OnOk};
ghost use Rattle.line_words.specs.Words.{words_of};
ghost use Rattle.pictures.specs.Cells.{IsWithin};
ghost use Rattle.pictures.specs.Looks.{shown_name, title_of, why_text, look_text, cell_text, words_text, line_text};
ghost use Rattle.pictures.specs.Spans.{IsSpan, is_in};

use crate::areas::area_of;
use crate::cells::{Cell, Look, cell_of};
use crate::classes::Class;
use crate::endpoints::Endpoint;
use crate::rects::{Area, put_hatched, put_rect, put_titled};
use crate::spans::{Span, is_in};
use fh_base::{Bytes, NoMemory};
use line_words::Words;
use std::alloc::Global;

/// The class of cells with samples.
fn shown_name(up: bool) -> &'static [u8]
    ensures name { result.now ≡ shown_name up }
    ensures short { length result.now ≤ 16 }
{
    if up { b"shown-ul" } else { b"shown-dl" }
}

/// The words of a line after the first, with one space between them.
#[tactic(auto, unfolding(crate::specs::Looks::title_of))]
fn title_of(alloc: Global, words: &Words<'_>) -> Result<Bytes, NoMemory>
    requires { length words.now ≤ 18 }
    ensures { IfOk result (λ title. title ≡ title_of words.now) }
{
    let mut title = Bytes::new(alloc);
    title.push_all(words.word(1))?;
    for i in 2..words.len() {
        title.push_all(b" ")?;
        title.push_all(words.word(i))?;
    }
    Ok(title)
}

/// Appends a rectangle with the reason as its title, and the hatching where nothing was to radiate.
fn put_why(
    alloc: Global,
    to: &mut Bytes,
    class: Class,
    silent: bool,
    area: Area,
    words: &Words<'_>,
) -> Result<(), NoMemory>
    requires { length words.now ≤ 18 }
    ensures { OnOk result (to.new ≡ to.old ++ why_text class silent area words.now) }
{
    let title = title_of(alloc, words)?;
    put_titled(to, class.name(), area, title.as_slice())?;
    if silent {
        put_hatched(to, area)?;
    }
    Ok(())
}

/// Appends what cells look like at their place.
fn put_look(
    alloc: Global,
    to: &mut Bytes,
    c: &Cell,
    area: Area,
    words: &Words<'_>,
) -> Result<(), NoMemory>
    requires { length words.now ≤ 18 }
    ensures { OnOk result (to.new ≡ to.old ++ look_text c.now area words.now) }
{
    match c.look {
        Look::Shown => put_rect(to, shown_name(c.up), area),
        Look::Missing => Ok(()),
        Look::Why { class, silent } => put_why(alloc, to, class, silent, area, words),
    }
}

/// Appends cells, where they lie in the subframes.
fn put_cell(
    alloc: Global,
    to: &mut Bytes,
    span: Span,
    endpoints: &[Endpoint],
    c: &Cell,
    words: &Words<'_>,
) -> Result<(), NoMemory>
    requires span { IsSpan span }
    requires few { length endpoints.now ≤ 16 }
    requires within { IsWithin endpoints.now c.now }
    requires words { length words.now ≤ 18 }
    ensures { OnOk result (to.new ≡ to.old ++ cell_text span endpoints.now c.now words.now) }
{
    if !is_in(span, c.at) {
        return Ok(());
    }
    put_look(alloc, to, c, area_of(span, endpoints, c), words)
}

/// Appends what the words of a line draw.
fn put_words(
    alloc: Global,
    to: &mut Bytes,
    span: Span,
    endpoints: &[Endpoint],
    words: &Words<'_>,
) -> Result<(), NoMemory>
    requires span { IsSpan span }
    requires few { length endpoints.now ≤ 16 }
    ensures { OnOk result (to.new ≡ to.old ++ words_text span endpoints.now words.now) }
{
    match cell_of(endpoints, words) {
        None => Ok(()),
        Some(c) => put_cell(alloc, to, span, endpoints, &c, words),
    }
}

/// Appends what a line draws.
#[tactic(auto, unfolding(crate::specs::Looks::line_text))]
pub(crate) fn put_line(
    alloc: Global,
    to: &mut Bytes,
    span: Span,
    endpoints: &[Endpoint],
    line: &[u8],
) -> Result<(), NoMemory>
    requires span { IsSpan span }
    requires few { length endpoints.now ≤ 16 }
    ensures { OnOk result (to.new ≡ to.old ++ line_text span endpoints.now line.now) }
{
    put_words(alloc, to, span, endpoints, &Words::of(line))
}
