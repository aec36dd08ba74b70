// The line of the delays that a unit measured.
ghost use Rattle.std.specs.Prelude.{◌≡◌, ◌+◌, ◌≤◌, ◌++◌, length};
ghost use Rattle.air_source.specs.UnitLines.{side_text};
ghost use Rattle.report_airs.specs.Results.{range_line, delays_text};

use air_source::Side;
use delay_measure::History;
use fh_base::Line;

fn side_name(side: Side) -> &'static [u8]
    ensures text { result.now ≡ side_text side }
    ensures short { length result.now ≡ 2 }
{
    match side {
        Side::Ru => b"ru",
        Side::Du => b"du",
    }
}

/// Appends the line of so many results, by the least and the greatest.
#[tactic(auto, unfolding(crate::specs::Results::range_line))]
fn append_range(side: Side, n: usize, least: i128, greatest: i128, line: &mut Line)
    requires { length line.old ≤ 380 }
    ensures text { line.new ≡ line.old ++ range_line side n least greatest }
    ensures short { length line.new ≤ length line.old + 113 }
{
    line.text(b"delays ");
    line.text(side_name(side));
    line.spaced(n as u64);
    line.text(b" ");
    line.wide(least);
    line.text(b" ");
    line.wide(greatest);
    line.text(b"\n");
}

/// Appends the line of the results that are kept, if there are any: `delays SIDE N LEAST GREATEST`. SIDE is the unit (`du` or
/// `ru`), N the number of results that are kept; LEAST and GREATEST are in units of 2^-16 ns.
pub fn append_delays(side: Side, results: &History, line: &mut Line)
    requires { length line.old ≤ 380 }
    ensures text { line.new ≡ line.old ++ delays_text side results.now.items }
    ensures short { length line.new ≤ length line.old + 113 }
{
    if let Some(least) = results.least() {
        if let Some(greatest) = results.greatest() {
            append_range(side, results.len(), least, greatest, line);
        }
    }
}
