// Which block a cell shows, and under which elements. All is worked out by hand.
ghost use Rattle.std.specs.Prelude.{◌<◌, ◌^◌};
ghost use Rattle.window_config.specs.Plans.{IsPlanLine};

use crate::sample_plans::{line, one, two};
use crate::samples::{DATA, Data, FIRST, LAST, READ, at_30_khz, block, cell, has_counted, heard};
use crate::steps::{close, made, step};
use air_source::MemoryAir;
use fault_counters::Counter;
use fh_base::List;
use std::test::Fail;
use window_config::{Delays, PlanLine};

/// A line of these elements of PRB 0.
fn elements(mask: u16) -> PlanLine
    requires { mask < 2 ^ 12 }
    ensures { IsPlanLine result }
{
    PlanLine { mask, ..line() }
}

/// Two lines of one cell give one report, with the elements of both. Each has its message; the block of the first one stays.
#[test]
fn two_lines_share_a_cell(rt: HostRuntime) -> Result<(), Fail> {
    let alloc = rt.alloc();
    let config = at_30_khz(Delays::usual()).expect(&rt, "30 kHz");
    let lines = two(alloc, elements(0xf00), elements(0x00f))?;
    let mut unit = made(alloc, &config, &lines)?;
    let mut air = MemoryAir::new(alloc, List::new(alloc));
    let first = Data { value: 3, ..DATA };
    let second = Data {
        sequence: 1,
        value: 7,
        ..DATA
    };
    assert_eq!(rt; step(&mut unit, FIRST, &first.frame()), READ);
    assert_eq!(rt; step(&mut unit, FIRST, &second.frame()), READ);
    assert_eq!(rt; close(&mut unit, LAST, &mut air), Ok(()));
    assert!(rt; unit.due() == None);
    assert_eq!(rt; air.heard().len(), 1);
    assert_eq!(rt; heard(&air, 0), Some(cell(0, 0xf0f, block(3))));
    let wanted = [
        (Counter::Frames, 2),
        (Counter::Messages, 2),
        (Counter::FWhole, 2),
        (Counter::UTaken, 1),
        (Counter::URepeat, 1),
        (Counter::Cells, 1),
    ];
    assert!(rt; has_counted(unit.counters(), &wanted));
    Ok(())
}

/// One of the two messages is lost: the cell still shows the elements of both lines, with the block of the other.
#[test]
fn one_of_two_messages_is_lost(rt: HostRuntime) -> Result<(), Fail> {
    let alloc = rt.alloc();
    let config = at_30_khz(Delays::usual()).expect(&rt, "30 kHz");
    let lines = two(alloc, elements(0xf00), elements(0x00f))?;
    let mut unit = made(alloc, &config, &lines)?;
    let mut air = MemoryAir::new(alloc, List::new(alloc));
    let second = Data {
        sequence: 1,
        value: 7,
        ..DATA
    };
    assert_eq!(rt; step(&mut unit, FIRST, &second.frame()), READ);
    assert_eq!(rt; close(&mut unit, LAST, &mut air), Ok(()));
    assert_eq!(rt; air.heard().len(), 1);
    assert_eq!(rt; heard(&air, 0), Some(cell(0, 0xf0f, block(7))));
    let wanted = [
        (Counter::Frames, 1),
        (Counter::Messages, 1),
        (Counter::FWhole, 1),
        (Counter::UTaken, 1),
        (Counter::Cells, 1),
    ];
    assert!(rt; has_counted(unit.counters(), &wanted));
    Ok(())
}

/// A line of PRB 2 under a line of no PRBs, which names all of the carrier: PRB 2 has the elements of both.
#[test]
fn a_line_under_one_of_all_prbs(rt: HostRuntime) -> Result<(), Fail> {
    let alloc = rt.alloc();
    let config = at_30_khz(Delays::usual()).expect(&rt, "30 kHz");
    let all = PlanLine {
        num_prb: 0,
        ..elements(0xf00)
    };
    let third = PlanLine {
        start_prb: 2,
        ..elements(0x00f)
    };
    let mut unit = made(alloc, &config, &two(alloc, all, third)?)?;
    let mut air = MemoryAir::new(alloc, List::new(alloc));
    let data = Data {
        prb: 2,
        value: 7,
        ..DATA
    };
    assert_eq!(rt; step(&mut unit, FIRST, &data.frame()), READ);
    assert_eq!(rt; close(&mut unit, LAST, &mut air), Ok(()));
    assert_eq!(rt; air.heard().len(), 4);
    assert_eq!(rt; heard(&air, 0), Some(cell(0, 0xf00, None)));
    assert_eq!(rt; heard(&air, 1), Some(cell(1, 0xf00, None)));
    assert_eq!(rt; heard(&air, 2), Some(cell(2, 0xf0f, block(7))));
    assert_eq!(rt; heard(&air, 3), Some(cell(3, 0xf00, None)));
    Ok(())
}

/// Data of cells that no line plans are taken, and then a repeat; no report speaks of them.
#[test]
fn data_of_cells_that_are_not_planned(rt: HostRuntime) -> Result<(), Fail> {
    let alloc = rt.alloc();
    let config = at_30_khz(Delays::usual()).expect(&rt, "30 kHz");
    let mut unit = made(alloc, &config, &one(alloc, line())?)?;
    let mut air = MemoryAir::new(alloc, List::new(alloc));
    let first = Data { prb: 2, ..DATA };
    let again = Data {
        sequence: 1,
        prb: 2,
        ..DATA
    };
    assert_eq!(rt; step(&mut unit, FIRST, &first.frame()), READ);
    assert_eq!(rt; step(&mut unit, FIRST, &again.frame()), READ);
    assert_eq!(rt; close(&mut unit, LAST, &mut air), Ok(()));
    assert_eq!(rt; air.heard().len(), 1);
    assert_eq!(rt; heard(&air, 0), Some(cell(0, 0xfff, None)));
    let wanted = [
        (Counter::Frames, 2),
        (Counter::Messages, 2),
        (Counter::FWhole, 2),
        (Counter::UTaken, 1),
        (Counter::URepeat, 1),
        (Counter::Missing, 1),
    ];
    assert!(rt; has_counted(unit.counters(), &wanted));
    Ok(())
}

/// A block of section 6 is received first: what section 5 has for that PRB is a repeat, and the cell shows nothing.
#[test]
fn a_block_of_another_section_first(rt: HostRuntime) -> Result<(), Fail> {
    let alloc = rt.alloc();
    let config = at_30_khz(Delays::usual()).expect(&rt, "30 kHz");
    let mut unit = made(alloc, &config, &one(alloc, line())?)?;
    let mut air = MemoryAir::new(alloc, List::new(alloc));
    let other = Data { section: 6, ..DATA };
    let own = Data {
        sequence: 1,
        ..DATA
    };
    assert_eq!(rt; step(&mut unit, FIRST, &other.frame()), READ);
    assert_eq!(rt; step(&mut unit, FIRST, &own.frame()), READ);
    assert_eq!(rt; close(&mut unit, LAST, &mut air), Ok(()));
    assert_eq!(rt; air.heard().len(), 1);
    assert_eq!(rt; heard(&air, 0), Some(cell(0, 0xfff, None)));
    let wanted = [
        (Counter::Frames, 2),
        (Counter::Messages, 2),
        (Counter::FWhole, 2),
        (Counter::UTaken, 1),
        (Counter::URepeat, 1),
        (Counter::Missing, 1),
    ];
    assert!(rt; has_counted(unit.counters(), &wanted));
    Ok(())
}

/// Data of section 5 for the PRBs 0 and 1: the first sample of each is (7, 0), the others are 0.
fn of_two_prbs() -> [u8; 112] {
    let mut frame = [0; 112];
    let one = Data {
        sequence: 1,
        value: 7,
        ..DATA
    }
    .frame();
    for k in 0..64usize {
        frame[k] = one[k];
    }
    frame[3] = 0x6c;
    frame[15] = 0x02;
    frame[65] = 7;
    frame
}

/// The same, where section 5 has a second PRB: it is taken for that one alone.
#[test]
fn a_block_of_another_section_in_part(rt: HostRuntime) -> Result<(), Fail> {
    let alloc = rt.alloc();
    let config = at_30_khz(Delays::usual()).expect(&rt, "30 kHz");
    let two_prbs = PlanLine {
        num_prb: 2,
        ..line()
    };
    let mut unit = made(alloc, &config, &one(alloc, two_prbs)?)?;
    let mut air = MemoryAir::new(alloc, List::new(alloc));
    let other = Data { section: 6, ..DATA };
    assert_eq!(rt; step(&mut unit, FIRST, &other.frame()), READ);
    assert_eq!(rt; step(&mut unit, FIRST, &of_two_prbs()), READ);
    assert_eq!(rt; close(&mut unit, LAST, &mut air), Ok(()));
    assert_eq!(rt; air.heard().len(), 2);
    assert_eq!(rt; heard(&air, 0), Some(cell(0, 0xfff, None)));
    assert_eq!(rt; heard(&air, 1), Some(cell(1, 0xfff, block(7))));
    let wanted = [
        (Counter::Frames, 2),
        (Counter::Messages, 2),
        (Counter::FWhole, 2),
        (Counter::UTaken, 2),
        (Counter::Cells, 1),
        (Counter::Missing, 1),
    ];
    assert!(rt; has_counted(unit.counters(), &wanted));
    Ok(())
}
