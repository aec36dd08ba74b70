// Sinks that take a byte a call and fail at each call in turn.
use crate::draw_texts::{GRID, SHOWN, WINDOWS};
use crate::worked_pictures::windows;
use fh_base::{List, MemorySink, NoMemory};
use pictures::{DrawFault, draw_grid};
use std::alloc::Global;
use std::test::Fail;

fn calls(alloc: Global, number: u64) -> Result<List<u64>, NoMemory> {
    let mut list = List::new(alloc);
    list.push(number)?;
    Ok(list)
}

#[test]
fn a_grid_is_written_in_part(rt: HostRuntime) -> Result<(), Fail> {
    let alloc = rt.alloc();
    for call in 0..GRID.len() {
        let fails = calls(alloc, (call as u64).saturating_add(1))?;
        let mut out = MemorySink::new(alloc, 1, fails);
        assert_eq!(rt;
            draw_grid(alloc, SHOWN, 1, 0, 1, &mut out),
            Err(DrawFault::WriteFault),
            "call {}",
            call
        );
        assert_eq!(rt; out.bytes(), &GRID[..call], "call {}", call);
    }
    Ok(())
}

#[test]
fn windows_are_written_in_part(rt: HostRuntime) -> Result<(), Fail> {
    let alloc = rt.alloc();
    for call in 0..WINDOWS.len() {
        let fails = calls(alloc, (call as u64).saturating_add(1))?;
        let mut out = MemorySink::new(alloc, 1, fails);
        assert_eq!(rt;
            windows(alloc, SHOWN, &mut out),
            Err(DrawFault::WriteFault),
            "call {}",
            call
        );
        assert_eq!(rt; out.bytes(), &WINDOWS[..call], "call {}", call);
    }
    Ok(())
}
