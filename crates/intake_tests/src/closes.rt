// The report of cells, by a plan of one line: two symbols of two PRBs. At 30 kHz symbol 0 of frame 1 is 71168 Tc long, of 781.25 ticks
// each, so the moments of symbol 1 are 55,600,000 ticks later. All is worked out by hand.
ghost use Rattle.window_config.specs.Plans.{IsPlanLine};

use crate::sample_plans::{line, one};
use crate::samples::{
    COMMAND, DATA, Data, FIRST, LAST, READ, at_30_khz, block, cell, has_counted, heard,
};
use crate::steps::{close, made, step};
use air_source::{AirCell, AirFault, MemoryAir};
use fault_counters::Counter;
use fh_base::{List, Ticks};
use std::test::Fail;
use window_config::{Delays, PlanLine};

/// A tick before the moment of symbol 0, and the start and the moment of symbol 1.
const BEFORE: Ticks = Ticks(15_776_255_999);

const START_1: Ticks = Ticks(15_415_600_000);

const LAST_1: Ticks = Ticks(15_831_856_000);

/// The symbols 0 and 1 of frame 1, so many PRBs from PRB 0 on.
fn two_symbols(num_prb: u8) -> PlanLine
    ensures { IsPlanLine result }
{
    PlanLine {
        count: 2,
        num_prb,
        ..line()
    }
}

/// A cell of symbol 1 without samples.
fn missing_1(prb: u16) -> Option<AirCell> {
    Some(AirCell {
        at: START_1,
        symbol: 1,
        ..cell(prb, 0xfff, None)
    })
}

/// Nothing is heard before the moment of symbol 0. There the air stops in the second cell, which is the next to be reported, also after
/// a frame of the same time; the cells of symbol 1 are reported at their own moment.
#[test]
fn cells_are_reported_in_order(rt: HostRuntime) -> Result<(), Fail> {
    let alloc = rt.alloc();
    let config = at_30_khz(Delays::usual()).expect(&rt, "30 kHz");
    let mut unit = made(alloc, &config, &one(alloc, two_symbols(2))?)?;
    let mut fails = List::new(alloc);
    fails.push(2)?;
    let mut air = MemoryAir::new(alloc, fails);
    assert_eq!(rt; step(&mut unit, FIRST, &DATA.frame()), READ);
    assert_eq!(rt; close(&mut unit, BEFORE, &mut air), Ok(()));
    assert!(rt; unit.clock() == BEFORE);
    assert_eq!(rt; air.heard().len(), 0);
    assert_eq!(rt; close(&mut unit, LAST, &mut air), Err(AirFault::Failed));
    assert!(rt; unit.clock() == BEFORE);
    assert!(rt; unit.due() == Some(LAST));
    assert_eq!(rt; step(&mut unit, LAST, &COMMAND), READ);
    assert_eq!(rt; close(&mut unit, LAST, &mut air), Ok(()));
    assert!(rt; unit.due() == Some(LAST_1));
    assert_eq!(rt; step(&mut unit, LAST, &COMMAND), READ);
    assert_eq!(rt; close(&mut unit, LAST_1, &mut air), Ok(()));
    assert!(rt; unit.clock() == LAST_1);
    assert!(rt; unit.due() == None);
    assert_eq!(rt; air.heard().len(), 4);
    assert_eq!(rt; heard(&air, 0), Some(cell(0, 0xfff, block(0))));
    assert_eq!(rt; heard(&air, 1), Some(cell(1, 0xfff, None)));
    assert_eq!(rt; heard(&air, 2), missing_1(0));
    assert_eq!(rt; heard(&air, 3), missing_1(1));
    let wanted = [
        (Counter::Frames, 3),
        (Counter::Messages, 3),
        (Counter::WrongWay, 2),
        (Counter::FWhole, 1),
        (Counter::UTaken, 1),
        (Counter::Cells, 1),
        (Counter::Missing, 3),
    ];
    assert!(rt; has_counted(unit.counters(), &wanted));
    Ok(())
}

/// A line of no PRBs names all four of its carrier, and its first PRB is not looked at. An air that stops in each cell once goes on with
/// that cell at the next call.
#[test]
fn an_air_stops_in_each_cell(rt: HostRuntime) -> Result<(), Fail> {
    let alloc = rt.alloc();
    let config = at_30_khz(Delays::usual()).expect(&rt, "30 kHz");
    let all = PlanLine {
        start_prb: 700,
        ..two_symbols(0)
    };
    let mut unit = made(alloc, &config, &one(alloc, all)?)?;
    let mut fails = List::new(alloc);
    for k in 0..8 {
        fails.push(2 * k + 1)?;
    }
    let mut air = MemoryAir::new(alloc, fails);
    for k in 0..8 {
        assert_eq!(rt; close(&mut unit, LAST_1, &mut air), Err(AirFault::Failed));
        assert_eq!(rt; air.heard().len(), k);
    }
    assert_eq!(rt; close(&mut unit, LAST_1, &mut air), Ok(()));
    assert_eq!(rt; air.heard().len(), 8);
    for k in 0..4 {
        assert_eq!(rt; heard(&air, k), Some(cell(k as u16, 0xfff, None)));
        assert_eq!(rt; heard(&air, 4 + k), missing_1(k as u16));
    }
    assert!(rt; has_counted(unit.counters(), &[(Counter::Missing, 8)]));
    Ok(())
}

/// Between two closes in which the air stops a frame is received, at the moment of the cells: each is for PRB 3 of symbol 0, which is still
/// to be reported and shows the first one's block.
#[test]
fn frames_come_between_two_closes(rt: HostRuntime) -> Result<(), Fail> {
    let alloc = rt.alloc();
    let config = at_30_khz(Delays::usual()).expect(&rt, "30 kHz");
    let mut unit = made(alloc, &config, &one(alloc, two_symbols(0))?)?;
    let mut fails = List::new(alloc);
    for k in 0..4 {
        fails.push(2 * k + 1)?;
    }
    let mut air = MemoryAir::new(alloc, fails);
    for k in 0..4u8 {
        let data = Data {
            sequence: k,
            prb: 3,
            value: 10 + k,
            ..DATA
        };
        assert_eq!(rt; close(&mut unit, LAST, &mut air), Err(AirFault::Failed));
        assert_eq!(rt; air.heard().len(), k as usize);
        assert!(rt; unit.due() == Some(LAST));
        assert_eq!(rt; step(&mut unit, LAST, &data.frame()), READ);
    }
    assert_eq!(rt; close(&mut unit, LAST, &mut air), Ok(()));
    assert_eq!(rt; air.heard().len(), 4);
    for k in 0..3 {
        assert_eq!(rt; heard(&air, k), Some(cell(k as u16, 0xfff, None)));
    }
    assert_eq!(rt; heard(&air, 3), Some(cell(3, 0xfff, block(10))));
    assert!(rt; unit.due() == Some(LAST_1));
    let wanted = [
        (Counter::Frames, 4),
        (Counter::Messages, 4),
        (Counter::FWhole, 4),
        (Counter::UTaken, 1),
        (Counter::URepeat, 3),
        (Counter::Cells, 1),
        (Counter::Missing, 3),
    ];
    assert!(rt; has_counted(unit.counters(), &wanted));
    Ok(())
}
