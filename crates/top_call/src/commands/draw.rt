// `draw grid` and `draw windows`: pictures of what `explain` writes.
ghost use Rattle.std.specs.Prelude.{◌≡◌, ◌≤◌, length};
ghost use Rattle.fh_base.specs.declared.source.TheConstants.{INPUT_LIMIT};
ghost use Rattle.top_call.specs.Answers.{grid_drawn, windows_drawn};
ghost use Rattle.top_call.specs.Run.{Performs};

use crate::endings::drawn_status;
use crate::status::Status;
use fh_base::Sink;
use pictures::{draw_grid, draw_windows};
use std::alloc::Global;

/// Draws the resource grid of some subframes.
pub(crate) fn write_grid<K: Sink>(
    alloc: Global,
    frame: u32,
    subframe: u8,
    count: u8,
    bytes: &[u8],
    out: &mut K,
) -> Status
    requires frame { frame ≤ 99999 }
    requires subframe { subframe ≤ 9 }
    requires some { 1 ≤ count }
    requires few { count ≤ 10 }
    ensures { Performs (grid_drawn frame subframe count bytes.now) (K.written out.old) (K.written out.new) (K.faults out.old) (K.faults out.new) result }
{
    drawn_status(draw_grid(alloc, bytes, frame, subframe, count, out))
}

/// Draws the windows, and what arrived in them.
pub(crate) fn write_arrivals<K: Sink>(alloc: Global, bytes: &[u8], out: &mut K) -> Status
    requires { length bytes.now ≤ INPUT_LIMIT }
    ensures { Performs (windows_drawn bytes.now) (K.written out.old) (K.written out.new) (K.faults out.old) (K.faults out.new) result }
{
    drawn_status(draw_windows(alloc, bytes, out))
}
