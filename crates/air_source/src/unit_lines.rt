// The lines of what a unit measured and counted.
ghost use Rattle.std.specs.Prelude.{◌≡◌, ◌≤◌, length};
ghost use Rattle.air_source.specs.UnitLines.{side_text, delay_text, count_text};

use crate::{Line, Side};
use fault_counters::Counter;
use fh_base::Ticks;

fn side_name(side: Side) -> &'static [u8]
    ensures text { result.now ≡ side_text side }
    ensures short { length result.now ≡ 2 }
{
    match side {
        Side::Ru => b"ru",
        Side::Du => b"du",
    }
}

/// Writes the line of a measured one-way delay in place of what was in the line, `delay T SIDE ID
/// VALUE`: T is the arrival that gave it in ticks, SIDE the unit that measured it (`du` or `ru`), ID the
/// measurement id, and VALUE the delay in units of 2^-16 ns, signed (message type 5 of eCPRI 2.0).
#[tactic(auto, unfolding(crate::specs::UnitLines::delay_text))]
pub fn put_delay(at: Ticks, side: Side, id: u8, value: i128, line: &mut Line)
    ensures { line.new ≡ delay_text at.0 side id value }
{
    line.clear();
    line.text(b"delay ");
    line.signed(at.0);
    line.text(b" ");
    line.text(side_name(side));
    line.spaced(u64::from(id));
    line.text(b" ");
    line.wide(value);
    line.text(b"\n");
}

/// The line of a measured one-way delay, as [`put_delay`] writes it.
pub fn delay_line(at: Ticks, side: Side, id: u8, value: i128) -> Line
    ensures { result ≡ delay_text at.0 side id value }
{
    let mut line = Line::new();
    put_delay(at, side, id, value, &mut line);
    line
}

/// Writes the line of a counter in place of what was in the line, `count SIDE NAME VALUE`: the unit
/// (`du` or `ru`), the counter's name and its value. It is the same at the value 0.
#[tactic(auto, unfolding(crate::specs::UnitLines::count_text))]
pub fn put_count(side: Side, counter: Counter, value: u64, line: &mut Line)
    ensures { line.new ≡ count_text side counter value }
{
    line.clear();
    line.text(b"count ");
    line.text(side_name(side));
    line.text(b" ");
    line.text(counter.name().as_bytes());
    line.spaced(value);
    line.text(b"\n");
}

/// The line of a counter, as [`put_count`] writes it.
pub fn count_line(side: Side, counter: Counter, value: u64) -> Line
    ensures { result ≡ count_text side counter value }
{
    let mut line = Line::new();
    put_count(side, counter, value, &mut line);
    line
}
