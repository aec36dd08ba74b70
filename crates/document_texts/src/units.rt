// The line above what a unit writes.
ghost use Rattle.std.specs.Prelude.{◌≡◌};
ghost use Rattle.document_texts.specs.Lines.{unit_text};

use fh_base::Line;

/// Writes the line `unit R` in place of what was in the line: R is the unit, counted from 0.
#[tactic(auto, unfolding(crate::specs::Lines::unit_text))]
pub fn put_unit(unit: u8, line: &mut Line)
    ensures { line.new ≡ unit_text unit }
{
    line.clear();
    line.text(b"unit");
    line.spaced(u64::from(unit));
    line.text(b"\n");
}
