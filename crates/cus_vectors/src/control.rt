// C-plane messages, read and written again.
ghost use Rattle.std.specs.Prelude.{◌≡◌, IsTrue};
ghost use Rattle.cplane_sections.specs.Message.{HeadFits, SectionFits};
ghost use Rattle.cplane_sections.specs.Tests.{IsHeadOf};

use crate::hexadecimal::text_of;
use crate::section_texts::{head_text, section_text};
use crate::words::byte;
use cplane_sections::{CHead, CSection, check, put_head, put_section, sections};
use fh_base::Shape;
use std::alloc::{AllocError, Global};
use std::str::SplitWhitespace;

/// The slots of `SYMBOLS SLOTS`.
pub fn read_shape(words: &mut SplitWhitespace<'_>) -> Option<Shape> {
    let symbols = byte(words)?;
    let slots = byte(words)?;
    Some(Shape { symbols, slots })
}

/// A message's refusal; or its header, its sections, and the message to which these are written.
pub fn message_text(alloc: Global, shape: Shape, bytes: &[u8]) -> Result<String, AllocError> {
    match check(bytes, shape) {
        Err(refusal) => format!(in alloc; "refused {} {}", refusal.why.name(), refusal.place),
        Ok(head) => {
            let first = head_text(alloc, &head)?;
            let rest = sections_text(alloc, bytes, &head)?;
            let written = written(alloc, bytes, &head)?;
            let last = text_of(alloc, written.as_slice())?;
            format!(in alloc; "{first}{rest}\n  written {last}")
        }
    }
}

/// The sections of a message, a line each.
fn sections_text(alloc: Global, bytes: &[u8], head: &CHead) -> Result<String, AllocError>
    requires { IsHeadOf head.now bytes.now }
{
    let mut text = String::new(alloc);
    for section in sections(bytes, head) {
        text.push_str(section_text(alloc, &section)?.as_str())?;
    }
    Ok(text)
}

/// Whether each field of a section has its width.
fn fits(s: &CSection) -> bool
    ensures { IsTrue result → SectionFits s.now }
{
    s.id < 4_096
        && s.start_prb < 1_024
        && s.mask < 4_096
        && s.num_symbol < 16
        && s.beam < 32_768
        && -8_388_608 <= s.freq_offset
        && s.freq_offset < 8_388_608
}

/// The message to which the header and the sections of a message are written.
fn written(alloc: Global, bytes: &[u8], head: &CHead) -> Result<Vec<u8>, AllocError>
    requires head { IsHeadOf head.now bytes.now }
    requires fits { HeadFits head.now }
{
    let mut into = Vec::new(alloc);
    let mut piece = [0xff; 12];
    let size = put_head(head, &mut piece);
    into.extend_from_slice(&piece[..size])?;
    for section in sections(bytes, head) {
        if fits(&section) {
            let size = put_section(head, &section, &mut piece);
            into.extend_from_slice(&piece[..size])?;
        }
    }
    Ok(into)
}
