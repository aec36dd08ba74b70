// The picture of a text, written.
ghost use Rattle.std.specs.Prelude.{◌≡◌, ◌++◌, ◌≤◌, length, IfOk, OnErr, OnOk};
ghost use Rattle.std.specs.Io.KnownBytes.{append_known};
ghost use Rattle.fh_base.specs.Causes.{Counts, has_failed};
ghost use Rattle.fh_base.specs.Told.{WritesPart};
ghost use Rattle.fh_base.specs.declared.source.TheConstants.{INPUT_LIMIT};
ghost use Rattle.pictures.specs.declared.rows.Rows.{Rows};
ghost use Rattle.pictures.specs.Refusals.{Draws, HasDrawCause};
ghost use Rattle.pictures.specs.WindowPicture.{counts_note, colours_note, head_text, commands_text, data_text, zero_text, start_of, foot_text, windows_picture, drawn, HasColumns};

use crate::arrival_reading::read_arrivals;
use crate::axis::{place_of, put_ticks};
use crate::faults::DrawFault;
use crate::opening::{put_closing, put_opening};
use crate::paths::put_down;
use crate::rows::Rows;
use crate::texts::{Anchor, put_text};
use crate::window_rows::{Shown, put_row};
use crate::windows::Windows;
use fh_base::{Bytes, INPUT_LIMIT, NoMemory, Sink, SinkFault, write_all_to};
use std::alloc::Global;

/// Appends what a bar counts.
#[tactic(auto, unfolding(crate::specs::WindowPicture::counts_note))]
fn put_counts_note(to: &mut Bytes) -> Result<(), NoMemory>
    ensures { OnOk result (to.new ≡ to.old ++ counts_note) }
{
    put_text(
        to,
        214,
        40,
        true,
        Anchor::Start,
        b"Nanoseconds before (-) and after the start of the symbol. A bar counts arrivals, of the first and of the last fragment of each section:",
    )
}

/// Appends what the colours are.
#[tactic(auto, unfolding(crate::specs::WindowPicture::colours_note))]
fn put_colours_note(to: &mut Bytes) -> Result<(), NoMemory>
    ensures { OnOk result (to.new ≡ to.old ++ colours_note) }
{
    put_text(
        to,
        214,
        54,
        true,
        Anchor::Start,
        b"blue on time, orange late, yellow early. The outermost bars hold all that is farther out.",
    )
}

/// Appends what is above the rows.
#[tactic(auto, unfolding(crate::specs::WindowPicture::head_text))]
fn put_head(to: &mut Bytes, windows: &Windows) -> Result<(), NoMemory>
    ensures { OnOk result (to.new ≡ to.old ++ head_text windows.now) }
{
    put_opening(to, 1_284, 652, b"Windows, and what arrived in them")?;
    put_counts_note(to)?;
    put_colours_note(to)?;
    put_ticks(to, windows)
}

/// Appends the rows of commands.
#[tactic(auto, unfolding(crate::specs::WindowPicture::commands_text))]
fn put_commands(to: &mut Bytes, windows: &Windows, rows: &Rows) -> Result<(), NoMemory>
    requires { HasColumns rows.now }
    ensures { OnOk result (to.new ≡ to.old ++ commands_text windows.now rows.now) }
{
    let down = Shown {
        sent: windows.t1a_cp_dl,
        awaited: windows.t2a_cp_dl,
        after: false,
    };
    let up = Shown {
        sent: windows.t1a_cp_ul,
        awaited: windows.t2a_cp_ul,
        after: false,
    };
    put_row(
        to,
        windows,
        84,
        b"downlink commands",
        down,
        &rows.downlink_commands,
    )?;
    put_row(
        to,
        windows,
        216,
        b"uplink commands",
        up,
        &rows.uplink_commands,
    )
}

/// Appends the rows of data.
#[tactic(auto, unfolding(crate::specs::WindowPicture::data_text))]
fn put_data(to: &mut Bytes, windows: &Windows, rows: &Rows) -> Result<(), NoMemory>
    requires { HasColumns rows.now }
    ensures { OnOk result (to.new ≡ to.old ++ data_text windows.now rows.now) }
{
    let down = Shown {
        sent: windows.t1a_up,
        awaited: windows.t2a_up,
        after: false,
    };
    let up = Shown {
        sent: windows.ta3,
        awaited: windows.ta4,
        after: true,
    };
    put_row(
        to,
        windows,
        348,
        b"downlink data",
        down,
        &rows.downlink_data,
    )?;
    put_row(to, windows, 480, b"uplink data", up, &rows.uplink_data)
}

/// Appends the line of the symbol's start, and its name.
#[tactic(auto, unfolding(crate::specs::WindowPicture::zero_text))]
fn put_zero(to: &mut Bytes, x: u32) -> Result<(), NoMemory>
    ensures { OnOk result (to.new ≡ to.old ++ zero_text x) }
{
    put_down(to, b"zero", x, 76, 546)?;
    put_text(to, x, 640, false, Anchor::Middle, b"start of the symbol")
}

/// Where the symbol starts.
fn start_of(windows: &Windows) -> u32
    ensures { result ≡ start_of windows.now }
{
    place_of(windows, 0)
}

/// Appends what is below the rows.
#[tactic(auto, unfolding(crate::specs::WindowPicture::foot_text))]
fn put_foot(to: &mut Bytes, windows: &Windows) -> Result<(), NoMemory>
    ensures { OnOk result (to.new ≡ to.old ++ foot_text windows.now) }
{
    put_zero(to, start_of(windows))?;
    put_closing(to)
}

/// The picture of windows and of what arrived in them.
#[tactic(auto, unfolding(crate::specs::WindowPicture::windows_picture))]
fn picture_of(alloc: Global, windows: &Windows, rows: &Rows) -> Result<Bytes, NoMemory>
    requires { HasColumns rows.now }
    ensures { IfOk result (λ picture. picture ≡ windows_picture windows.now rows.now) }
{
    let mut picture = Bytes::new(alloc);
    put_head(&mut picture, windows)?;
    put_commands(&mut picture, windows, rows)?;
    put_data(&mut picture, windows, rows)?;
    put_foot(&mut picture, windows)?;
    Ok(picture)
}

/// Writes the picture of windows and of what arrived in them.
fn write_picture<K: Sink>(
    alloc: Global,
    windows: &Windows,
    rows: &Rows,
    out: &mut K,
) -> Result<(), SinkFault>
    requires { HasColumns rows.now }
    ensures done { OnOk result (K.written out.new ≡ append_known (K.written out.old) (windows_picture windows.now rows.now)) }
    ensures part { OnErr result (WritesPart (K.written out.old) (K.written out.new) (windows_picture windows.now rows.now)) }
    ensures cause { Counts (has_failed result) (K.faults out.old) (K.faults out.new) }
{
    let picture = picture_of(alloc, windows, rows)?;
    write_all_to(out, picture.as_slice())
}

/// Writes the picture of the windows, and of what arrived in them, of a text of at most [`INPUT_LIMIT`] bytes that the command `explain`
/// wrote. A picture is a function of the text.
///
/// All lines are tested before anything is written. At Ok exactly the picture was appended to what `out` holds. What is kept of the text
/// are numbers, as many for a long text as for a short one.
///
/// # Errors
///
/// [`DrawFault::Refused`] exactly where a line of the text is refused: it has the first such line and its first reason, and nothing was
/// written. [`DrawFault::WriteFault`] exactly where the sink's count of faults rose, and [`DrawFault::NoMemory`] where memory runs out:
/// a part of the picture was written, or nothing, and not all.
pub fn draw_windows<K: Sink>(alloc: Global, text: &[u8], out: &mut K) -> Result<(), DrawFault>
    requires { length text.now ≤ INPUT_LIMIT }
    ensures draws { Draws (drawn text.now) (K.written out.old) (K.written out.new) result }
    ensures cause { HasDrawCause (K.faults out.old) (K.faults out.new) result }
{
    match read_arrivals(alloc, text) {
        Err(fault) => Err(fault),
        Ok(gathered) => match write_picture(alloc, &gathered.windows, &gathered.rows, out) {
            Ok(()) => Ok(()),
            Err(fault) => Err(DrawFault::from(fault)),
        },
    }
}
