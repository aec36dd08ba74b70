// The row of a flow.
ghost use Rattle.std.specs.Prelude.{◌≡◌, ◌++◌, ◌≤◌, ◌<◌, ◌^◌, pos, neg_ℤ, ◌≤ℤ◌, length, OnOk};
ghost use Rattle.pictures.specs.WindowRows.{first_of, last_of, sent_name, awaited_name, window_text, row_text};

use crate::axis::place_of;
use crate::bars::put_bars;
use crate::labels::{put_sections, put_since, put_until};
use crate::paths::put_across;
use crate::rects::{Area, put_rect};
use crate::tallies::Row;
use crate::texts::{Anchor, put_text};
use crate::windows::{Window, Windows};
use fh_base::{Bytes, Line, NoMemory};

/// When a window opens, in nanoseconds after the symbol.
fn first_of(window: Window, after: bool) -> i64
    ensures value { result ≡ first_of window after }
    ensures low { neg_ℤ (pos (2 ^ 32)) ≤ℤ result }
    ensures high { result ≤ℤ pos (2 ^ 32) }
{
    if after {
        i64::from(window.min)
    } else {
        -i64::from(window.max)
    }
}

/// When it closes.
fn last_of(window: Window, after: bool) -> i64
    ensures value { result ≡ last_of window after }
    ensures low { neg_ℤ (pos (2 ^ 32)) ≤ℤ result }
    ensures high { result ≤ℤ pos (2 ^ 32) }
{
    if after {
        i64::from(window.max)
    } else {
        -i64::from(window.min)
    }
}

/// Appends a window: its name and its ends, and its place.
#[tactic(auto, unfolding(crate::specs::WindowRows::window_text))]
fn put_window(
    to: &mut Bytes,
    windows: &Windows,
    y: u32,
    name: &[u8],
    window: Window,
    after: bool,
) -> Result<(), NoMemory>
    requires y { y < 2 ^ 30 }
    requires short { length name.now ≤ 40 }
    ensures { OnOk result (to.new ≡ to.old ++ window_text windows.now y name.now window after) }
{
    let mut line = Line::new();
    line.text(name);
    line.spaced(u64::from(window.min));
    line.text(b" to");
    line.spaced(u64::from(window.max));
    put_text(to, 204, y + 11, true, Anchor::End, line.as_slice())?;
    let x = place_of(windows, first_of(window, after));
    let end = place_of(windows, last_of(window, after));
    let area = Area {
        x,
        y,
        width: end.saturating_sub(x).max(1),
        height: 14,
    };
    put_rect(to, b"win", area)
}

/// A flow of commands or data, as a row shows it.
#[derive(Clone, Copy)]
pub(crate) struct Shown {
    /// The window in which it is sent.
    pub sent: Window,
    /// The window in which it is awaited.
    pub awaited: Window,
    /// Whether these lie after the symbol.
    pub after: bool,
}

/// Appends a row.
#[tactic(auto, unfolding(crate::specs::WindowRows::row_text))]
pub(crate) fn put_row(
    to: &mut Bytes,
    windows: &Windows,
    y: u32,
    name: &[u8],
    shown: Shown,
    row: &Row,
) -> Result<(), NoMemory>
    requires low { 84 ≤ y }
    requires high { y < 2 ^ 29 }
    requires few { length row.now.columns ≤ 1041 }
    ensures { OnOk result (to.new ≡ to.old ++ row_text windows.now y name.now shown row.now) }
{
    put_text(to, 204, y + 14, false, Anchor::End, name)?;
    put_window(
        to,
        windows,
        y + 23,
        sent_name(shown.after),
        shown.sent,
        shown.after,
    )?;
    put_window(
        to,
        windows,
        y + 43,
        awaited_name(shown.after),
        shown.awaited,
        shown.after,
    )?;
    put_across(to, b"slot", 214, y + 122, 1_040)?;
    put_bars(to, y + 122, row.columns())?;
    put_sections(to, y + 88, row.sections())?;
    put_since(to, y + 103, row.since())?;
    put_until(to, y + 118, row.until())
}

fn sent_name(after: bool) -> &'static [u8]
    ensures name { result.now ≡ sent_name after }
    ensures short { length result.now ≤ 40 }
{
    if after {
        b"sent in Ta3"
    } else {
        b"sent in T1a"
    }
}

fn awaited_name(after: bool) -> &'static [u8]
    ensures name { result.now ≡ awaited_name after }
    ensures short { length result.now ≤ 40 }
{
    if after {
        b"awaited in Ta4"
    } else {
        b"awaited in T2a"
    }
}
