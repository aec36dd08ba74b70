// The line of a run.
ghost use Rattle.std.specs.Prelude.{◌≡◌, ◌+◌, ◌≤◌, ◌++◌, length};
ghost use Rattle.air_source.specs.CellLines.{slot_text};
ghost use Rattle.air_source.specs.Units.{way_text};
ghost use Rattle.report_airs.specs.Lines.{place_text, totals_text, line_text};

use crate::places::SymbolPlace;
use crate::runs::Run;
use crate::totals::Totals;
use air_source::Side;
use fh_base::{Line, Slot};

fn way(side: Side) -> &'static [u8]
    ensures text { result.now ≡ way_text side }
    ensures short { length result.now ≡ 2 }
{
    match side {
        Side::Ru => b"dl",
        Side::Du => b"ul",
    }
}

fn append_slot(slot: Slot, line: &mut Line)
    requires { length line.old ≤ 400 }
    ensures text { line.new ≡ line.old ++ slot_text slot }
    ensures short { length line.new ≤ length line.old + 63 }
{
    line.spaced_signed(slot.frame);
    line.spaced(u64::from(slot.subframe));
    line.spaced(u64::from(slot.slot));
}

/// Appends the words that say which symbol it is.
fn append_place(place: &SymbolPlace, line: &mut Line)
    requires { length line.old ≤ 200 }
    ensures text { line.new ≡ line.old ++ place_text place.now }
    ensures short { length line.new ≤ length line.old + 112 }
{
    line.text(way(place.side));
    line.spaced_signed(place.at.0);
    line.text(b" ");
    line.hex4(place.id);
    append_slot(place.slot, line);
    line.spaced(u64::from(place.symbol));
}

/// Appends the words of the sums.
fn append_totals(totals: &Totals, line: &mut Line)
    requires { length line.old ≤ 400 }
    ensures text { line.new ≡ line.old ++ totals_text totals.now }
    ensures short { length line.new ≤ length line.old + 84 }
{
    line.spaced(totals.elements);
    line.spaced_signed(totals.i);
    line.spaced_signed(totals.q);
    line.spaced(totals.missing);
}

/// Writes the line of a run in place of what was in the line: `sum WAY T ID F S L Y ELEMENTS I Q MISSING`.
///
/// WAY is `dl` for a run of the radio unit and `ul` for one of the distributed unit, T the start of the symbol in ticks, F the
/// frame (both signed), S the subframe, L the slot, Y the symbol. ELEMENTS is the number of elements shown, I and Q are the
/// sums of theirs, MISSING is the number of missing cells.
#[tactic(auto, unfolding(crate::specs::Lines::sum_line))]
pub fn put_run(run: &Run, line: &mut Line)
    ensures text { line.new ≡ line_text run.now }
    ensures short { length line.new ≤ 201 }
{
    line.clear();
    line.text(b"sum ");
    append_place(&run.place(), line);
    append_totals(&run.totals(), line);
    line.text(b"\n");
}
