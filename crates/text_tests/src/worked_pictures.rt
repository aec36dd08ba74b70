// Worked pictures.
use crate::draw_texts::{GRID, SHOWN, WINDOWS};
use fh_base::{INPUT_LIMIT, PlainSink, Sink};
use pictures::{DrawFault, draw_grid, draw_windows};
use std::alloc::Global;

/// The picture of windows of a text that is short enough.
pub(crate) fn windows<K: Sink>(alloc: Global, text: &[u8], out: &mut K) -> Result<(), DrawFault> {
    if text.len() > INPUT_LIMIT {
        return Err(DrawFault::NoMemory);
    }
    draw_windows(alloc, text, out)
}

#[test]
fn a_grid_is_drawn(rt: HostRuntime) {
    let mut out = PlainSink::new(rt.alloc());
    assert_eq!(rt; draw_grid(rt.alloc(), SHOWN, 1, 0, 1, &mut out), Ok(()));
    assert_eq!(rt; out.bytes(), GRID);
}

#[test]
fn windows_are_drawn(rt: HostRuntime) {
    let mut out = PlainSink::new(rt.alloc());
    assert_eq!(rt; windows(rt.alloc(), SHOWN, &mut out), Ok(()));
    assert_eq!(rt; out.bytes(), WINDOWS);
}
