// Bars of arrivals.
ghost use Rattle.std.specs.Prelude.{◌≡◌, ◌++◌, ◌≤◌, ◌<◌, ◌^◌, length, OnOk};
ghost use Rattle.std.specs.List.{slice_index_or};
ghost use Rattle.pictures.specs.Counts.{no_counts};
ghost use Rattle.pictures.specs.Bars.{sum_of, most_of, height_of, bar_text, column_text, bars_text};

use crate::rects::{Area, put_rect};
use crate::scales::scaled;
use crate::tallies::Counts;
use fh_base::{Bytes, NoMemory};

/// How many marks a column has.
fn sum_of(counts: Counts) -> u64
    ensures value { result ≡ sum_of counts }
    ensures small { result < 2 ^ 34 }
{
    u64::from(counts.on_time) + u64::from(counts.late) + u64::from(counts.early)
}

/// The most marks of a column.
fn most_of(columns: &[Counts]) -> u64
    ensures value { result ≡ most_of columns.now }
    ensures small { result < 2 ^ 34 }
{
    let mut most = 0;
    for counts in columns {
        most = most.max(sum_of(*counts));
    }
    most
}

/// How high the bar of so many marks is: 48 pixels for the most, at least 4, and nothing for none.
fn height_of(n: u32, most: u64) -> u32
    requires { most < 2 ^ 34 }
    ensures value { result ≡ height_of n most }
    ensures small { result ≤ 48 }
{
    if n == 0 {
        0
    } else {
        scaled(u64::from(n), most.max(1), 48).max(4)
    }
}

/// Appends a bar of a kind, where it has a height.
fn put_bar(to: &mut Bytes, class: &[u8], x: u32, top: u32, height: u32) -> Result<(), NoMemory>
    requires { length class.now ≤ 16 }
    ensures { OnOk result (to.new ≡ to.old ++ bar_text class.now x top height) }
{
    if height == 0 {
        return Ok(());
    }
    let area = Area {
        x,
        y: top,
        width: 3,
        height,
    };
    put_rect(to, class, area)
}

/// Appends the bars of a column, one on the other.
#[tactic(auto, unfolding(crate::specs::Bars::column_text))]
fn put_column(
    to: &mut Bytes,
    base: u32,
    most: u64,
    column: u32,
    counts: Counts,
) -> Result<(), NoMemory>
    requires base { 144 ≤ base }
    requires most { most < 2 ^ 34 }
    requires column { column ≤ 1040 }
    ensures { OnOk result (to.new ≡ to.old ++ column_text base most column counts) }
{
    let x = 213 + column;
    let on_time = height_of(counts.on_time, most);
    let late = height_of(counts.late, most);
    let early = height_of(counts.early, most);
    put_bar(to, b"ok", x, base - on_time, on_time)?;
    put_bar(to, b"late", x, base - on_time - late, late)?;
    put_bar(to, b"early", x, base - on_time - late - early, early)
}

/// The counts of a column.
fn counts_at(columns: &[Counts], column: usize) -> Counts
    requires { column < length columns.now }
    ensures { result ≡ slice_index_or columns.now column no_counts }
{
    columns[column]
}

/// Appends the bars of all columns.
#[tactic(auto, unfolding(crate::specs::Bars::bars_text))]
pub(crate) fn put_bars(to: &mut Bytes, base: u32, columns: &[Counts]) -> Result<(), NoMemory>
    requires base { 144 ≤ base }
    requires few { length columns.now ≤ 1041 }
    ensures { OnOk result (to.new ≡ to.old ++ bars_text base columns.now) }
{
    let most = most_of(columns);
    for column in 0..columns.len() {
        put_column(to, base, most, column as u32, counts_at(columns, column))?;
    }
    Ok(())
}
