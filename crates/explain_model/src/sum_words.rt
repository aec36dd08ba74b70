// The words of margins and numbers of cells.
ghost use Rattle.std.specs.Prelude.{◌≡◌, ◌+◌, ◌≤◌, ◌++◌, [], length, codes};
ghost use Rattle.explain_model.specs.Lines.{class_text, least_text, beyond_text, margin_text, cell_word_text, reason_line_text};

use crate::reason_words::from_word;
use crate::values::{CellWord, Margin, MarginClass};
use crate::words::{id, timing};
use air_source::Side;
use fh_base::Line;
use member_lines::{named, way};

/// The name of a class.
pub fn class_name(class: MarginClass) -> &'static [u8]
    ensures text { result.now ≡ class_text class }
    ensures short { length result.now ≤ 3 }
{
    match class {
        MarginClass::Down => b"c",
        MarginClass::Up => b"cul",
        MarginClass::Data => b"u",
    }
}

// Appends the least distances, where something was on time.
fn least(line: &mut Line, m: &Margin)
    requires { length line.old + 54 ≤ 512 }
    ensures text { line.new ≡ line.old ++ least_text m.now }
    ensures short { length line.new ≤ length line.old + 54 }
{
    if m.ontime != 0 {
        timing(line, m.least);
    }
}

// Appends how many were late, and by how much at most.
fn late(line: &mut Line, number: u64, by: u64)
    requires { length line.old + 54 ≤ 512 }
    ensures text { line.new ≡ line.old ++ beyond_text (codes "late") number by }
    ensures short { length line.new ≤ length line.old + 54 }
{
    if number != 0 {
        named(line, b"late", number);
        named(line, b"lateby", by);
    }
}

// Appends how many were early, and by how much at most.
fn early(line: &mut Line, number: u64, by: u64)
    requires { length line.old + 56 ≤ 512 }
    ensures text { line.new ≡ line.old ++ beyond_text (codes "early") number by }
    ensures short { length line.new ≤ length line.old + 56 }
{
    if number != 0 {
        named(line, b"early", number);
        named(line, b"earlyby", by);
    }
}

/// Appends a margin.
#[tactic(auto, unfolding(crate::specs::Lines::margin_text))]
pub fn margin_words(line: &mut Line, m: &Margin)
    requires { length line.old + 192 ≤ 512 }
    ensures text { line.new ≡ line.old ++ margin_text m.now }
    ensures short { length line.new ≤ length line.old + 192 }
{
    named(line, b"ontime", m.ontime);
    least(line, m);
    late(line, m.late, m.late_by);
    early(line, m.early, m.early_by);
}

/// Appends what a run of cells shows.
pub fn cell_word(line: &mut Line, word: CellWord)
    requires { length line.old + 32 ≤ 512 }
    ensures text { line.new ≡ line.old ++ cell_word_text word }
    ensures short { length line.new ≤ length line.old + 32 }
{
    match word {
        CellWord::Shown { from } => {
            line.text(b" shown");
            from_word(line, from);
        }
        CellWord::Missing => line.text(b" missing"),
    }
}

/// Appends the line of a number of cells or PRBs to an empty line.
pub fn reason_line(line: &mut Line, side: Side, endpoint: u16, what: &[u8], word: &[u8], n: u64)
    requires empty { line.old ≡ [] }
    requires room { length what.now + length word.now ≤ 100 }
    ensures { line.new ≡ reason_line_text side endpoint what.now word.now n }
{
    line.text(b"reason ");
    line.text(way(side));
    id(line, endpoint);
    line.text(what);
    line.text(word);
    line.spaced(n);
    line.text(b"\n");
}
