// The line of a cell.
ghost use Rattle.std.specs.Prelude.{◌≡◌, ◌+◌, ◌%◌, ◌<◌, ◌≤◌, ◌++◌, codes, length, []};
ghost use Rattle.air_source.specs.CellLines.{slot_text, sample_text, items_text, item_text, cell_text};
ghost use Rattle.air_source.specs.SymbolWords.{symbol_of, symbol_text, rest_text};
ghost use Rattle.air_source.specs.Units.{way_text};

use crate::symbols::{CellSymbol, symbol_of};
use crate::{AirCell, Line, Side};
use bfp_codec::Wide;
use fh_base::Slot;

fn way(side: Side) -> &'static [u8]
    ensures text { result.now ≡ way_text side }
    ensures short { length result.now ≡ 2 }
{
    match side {
        Side::Ru => b"dl",
        Side::Du => b"ul",
    }
}

fn slot_words(line: &mut Line, slot: Slot)
    requires { length line.old ≤ 28 }
    ensures text { line.new ≡ line.old ++ slot_text slot }
    ensures short { length line.new ≤ length line.old + 63 }
{
    line.spaced_signed(slot.frame);
    line.spaced(u64::from(slot.subframe));
    line.spaced(u64::from(slot.slot));
}

/// Writes what the lines of a symbol begin with in place of what was in the line.
#[tactic(auto, unfolding(crate::specs::SymbolWords::symbol_text))]
pub(crate) fn put_symbol(s: &CellSymbol, line: &mut Line)
    ensures text { line.new ≡ symbol_text s.now }
    ensures short { length line.new ≤ 112 }
{
    line.clear();
    line.text(way(s.side));
    line.spaced_signed(s.at.0);
    line.text(b" ");
    line.hex4(s.id);
    slot_words(line, s.slot);
    line.spaced(u64::from(s.symbol));
}

// Appends the word of an element that is in the mask.
#[inline(always)]
fn sample(line: &mut Line, wide: Wide)
    requires { length line.old + 24 ≤ 512 }
    ensures text { line.new ≡ line.old ++ codes " " ++ sample_text wide }
    ensures short { length line.new ≤ length line.old + 24 }
{
    line.spaced_pair(wide.i, wide.q);
}

// Appends the word of one element.
fn item(line: &mut Line, mask: u16, block: &[Wide; 12], k: usize)
    requires room { length line.old + 24 ≤ 512 }
    requires inside { k < 12 }
    ensures text { line.new ≡ line.old ++ item_text mask block.now k }
    ensures short { length line.new ≤ length line.old + 24 }
{
    if (mask >> (11 - k)) & 1 == 1 {
        sample(line, block[k]);
    } else {
        line.text(b" .");
    }
}

// Appends the words of the samples of a mask that has all elements.
fn all_items(line: &mut Line, mask: u16, block: &[Wide; 12])
    requires full { mask % 4096 ≡ 4095 }
    requires room { length line.old ≤ 180 }
    ensures text { line.new ≡ line.old ++ items_text mask block.now 12 }
    ensures short { length line.new ≤ 468 }
{
    for k in 0..12 {
        sample(line, block[k]);
    }
}

// Appends the words of the samples of any mask.
fn some_items(line: &mut Line, mask: u16, block: &[Wide; 12])
    requires { length line.old ≤ 180 }
    ensures text { line.new ≡ line.old ++ items_text mask block.now 12 }
    ensures short { length line.new ≤ 468 }
{
    for k in 0..12 {
        item(line, mask, block, k);
    }
}

// Appends the words of the samples.
fn items(line: &mut Line, mask: u16, block: &[Wide; 12])
    requires { length line.old ≤ 180 }
    ensures text { line.new ≡ line.old ++ items_text mask block.now 12 }
    ensures short { length line.new ≤ 468 }
{
    if mask % 0x1000 == 0xfff {
        all_items(line, mask, block)
    } else {
        some_items(line, mask, block)
    }
}

/// Appends what is in the line of a cell after its symbol.
pub(crate) fn put_rest(c: &AirCell, line: &mut Line)
    requires { length line.old ≤ 112 }
    ensures { line.new ≡ line.old ++ rest_text c.now }
{
    line.spaced(u64::from(c.prb));
    line.spaced(u64::from(c.section));
    line.text(b" ");
    line.hex3(c.mask);
    match &c.block {
        None => line.text(b" missing"),
        Some(block) => items(line, c.mask, block),
    }
    line.text(b"\n");
}

/// Writes the line of a cell in place of what was in the line: `dl T ID F S L Y PRB SECTION MASK
/// ITEMS` for a cell of the radio unit, and `ul` with the same words for one of the distributed unit.
///
/// T is the start of the symbol in ticks, F the frame (both signed), S the subframe, L the slot, Y the
/// symbol. ITEMS are twelve words, `I,Q` for an element of the mask and `.` for another; or the one word
/// `missing` where the block is None. MASK and ITEMS go by the low 12 bits of the mask.
#[tactic(auto, using(crate::proofs::CellParts::cell_split))]
pub fn put_cell(c: &AirCell, line: &mut Line)
    ensures { line.new ≡ cell_text c.now }
{
    put_symbol(&symbol_of(c), line);
    put_rest(c, line);
}

/// The line of a cell, as [`put_cell`] writes it.
pub fn cell_line(c: &AirCell) -> Line
    ensures { result ≡ cell_text c.now }
{
    let mut line = Line::new();
    put_cell(c, &mut line);
    line
}
