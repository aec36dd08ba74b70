// The line of a combined cell.
ghost use Rattle.std.specs.Prelude.{◌≡◌, ◌+◌, ◌<◌, ◌≤◌, ◌++◌, length, []};
ghost use Rattle.air_source.specs.CellLines.{slot_text};
ghost use Rattle.document_texts.specs.Lines.{element_text, elements_text, mix_back_text, mix_front_text, mix_head_text, sum_text};

use fh_base::{Line, Slot};
use shared_cell::{Mixed, Sum};

fn slot_words(line: &mut Line, slot: Slot)
    requires { length line.old ≤ 29 }
    ensures text { line.new ≡ line.old ++ slot_text slot }
    ensures short { length line.new ≤ length line.old + 63 }
{
    line.spaced_signed(slot.frame);
    line.spaced(u64::from(slot.subframe));
    line.spaced(u64::from(slot.slot));
}

// Appends the words of a combined cell's line before its sums to an empty line.
fn head(m: &Mixed, line: &mut Line)
    requires { line.old ≡ [] }
    ensures text { line.new ≡ mix_head_text m.now }
    ensures short { length line.new ≤ 180 }
{
    line.text(b"mix");
    line.spaced_signed(m.at.0);
    line.text(b" ");
    line.hex4(m.id);
    slot_words(line, m.slot);
    line.spaced(u64::from(m.symbol));
    line.spaced(u64::from(m.prb));
    line.spaced(u64::from(m.section));
    line.text(b" ");
    line.hex3(m.mask);
    line.spaced(u64::from(m.units));
}

// Appends both parts of a sum.
fn sum(line: &mut Line, sum: Sum)
    requires { length line.old + 41 ≤ 512 }
    ensures text { line.new ≡ line.old ++ sum_text sum }
    ensures short { length line.new ≤ length line.old + 41 }
{
    line.signed(sum.i);
    line.text(b",");
    line.signed(sum.q);
}

// Appends the word of one element.
fn element(line: &mut Line, m: &Mixed, k: usize)
    requires room { length line.old + 42 ≤ 512 }
    requires inside { k < 12 }
    ensures text { line.new ≡ line.old ++ element_text m.now k }
    ensures short { length line.new ≤ length line.old + 42 }
{
    if (m.mask >> (11 - k)) & 1 == 1 {
        line.text(b" ");
        sum(line, m.sums[k]);
    } else {
        line.text(b" .");
    }
}

// Appends the words of six elements, from one on.
fn elements(line: &mut Line, m: &Mixed, first: usize)
    requires room { length line.old ≤ 180 }
    requires inside { first ≤ 6 }
    ensures text { line.new ≡ line.old ++ elements_text m.now first 6 }
    ensures short { length line.new ≤ 432 }
{
    for n in 0..6 {
        element(line, m, first + n);
    }
}

/// Writes the first half of the line of a combined cell in place of what was in the line: `mix T ID F S L Y PRB SECTION MASK UNITS`,
/// and after it the words of elements 0 to 5, or the one word `missing` where no unit has samples.
///
/// T is the start of the symbol in ticks, F the frame (both signed), S the subframe, L the slot, Y the symbol, UNITS how many units have
/// samples there. An element of the mask has the word `I,Q`, the sums of the units' samples, and another `.`.
#[tactic(auto, unfolding(crate::specs::Lines::mix_front_text))]
pub fn put_mix_front(m: &Mixed, line: &mut Line)
    ensures { line.new ≡ mix_front_text m.now }
{
    line.clear();
    head(m, line);
    if m.units == 0 {
        line.text(b" missing");
    } else {
        elements(line, m, 0);
    }
}

/// Writes the second half of the line of a combined cell in place of what was in the line: the words of elements 6 to 11, none where no
/// unit has samples, and the line feed.
#[tactic(auto, unfolding(crate::specs::Lines::mix_back_text))]
pub fn put_mix_back(m: &Mixed, line: &mut Line)
    ensures { line.new ≡ mix_back_text m.now }
{
    line.clear();
    if m.units != 0 {
        elements(line, m, 6);
    }
    line.text(b"\n");
}
