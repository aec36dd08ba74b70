// Plans of two lines at 30 kHz: in which order their cells are reported. Symbol 0 of a slot of frame 1 that begins a half millisecond is
// 55,600,000 ticks long, each other one 54,800,000; Ta4's maximum is 416,256,000 ticks. All is worked out by hand.
ghost use Rattle.std.specs.Prelude.{◌<◌, ◌^◌};
ghost use Rattle.window_config.specs.Plans.{IsPlanLine};

use crate::sample_plans::{line, two};
use crate::samples::{at_30_khz, heard};
use crate::steps::{close, made};
use air_source::MemoryAir;
use fh_base::{List, Slot, Ticks};
use std::test::Fail;
use window_config::{Delays, PlanLine};

/// An uplink line of slot 0 or 1 of frame 1: two symbols from this one on, and one PRB.
fn two_symbols(slot: u8, symbol: u8, prb: u16, section: u16) -> PlanLine
    requires slot { slot < 2 }
    requires symbol { symbol < 8 }
    requires prb { prb < 4 }
    requires section { section < 2 ^ 12 }
    ensures { IsPlanLine result }
{
    PlanLine {
        slot: Slot {
            frame: 1,
            subframe: 0,
            slot,
        },
        symbol,
        count: 2,
        start_prb: prb,
        section,
        ..line()
    }
}

/// The start, slot, symbol, PRB and section of the cell that was heard with an index.
fn told(air: &MemoryAir, i: usize) -> Option<(i64, u8, u8, u16, u16)> {
    let cell = heard(air, i)?;
    Some((
        cell.at.0,
        cell.slot.slot,
        cell.symbol,
        cell.prb,
        cell.section,
    ))
}

/// Two lines of a slot whose symbols overlap in part: symbol 1 has the cells of both, and is told once.
#[test]
fn symbols_overlap_in_part(rt: HostRuntime) -> Result<(), Fail> {
    let alloc = rt.alloc();
    let config = at_30_khz(Delays::usual()).expect(&rt, "30 kHz");
    let lines = two(alloc, two_symbols(0, 1, 1, 6), two_symbols(0, 0, 0, 5))?;
    let mut unit = made(alloc, &config, &lines)?;
    let mut air = MemoryAir::new(alloc, List::new(alloc));
    assert!(rt; unit.due() == Some(Ticks(15_776_256_000)));
    assert_eq!(rt; close(&mut unit, Ticks(15_831_856_000), &mut air), Ok(()));
    assert!(rt; unit.due() == Some(Ticks(15_886_656_000)));
    assert_eq!(rt; close(&mut unit, Ticks(16_000_000_000), &mut air), Ok(()));
    assert!(rt; unit.due() == None);
    assert_eq!(rt; air.heard().len(), 4);
    assert_eq!(rt; told(&air, 0), Some((15_360_000_000, 0, 0, 0, 5)));
    assert_eq!(rt; told(&air, 1), Some((15_415_600_000, 0, 1, 0, 5)));
    assert_eq!(rt; told(&air, 2), Some((15_415_600_000, 0, 1, 1, 6)));
    assert_eq!(rt; told(&air, 3), Some((15_470_400_000, 0, 2, 1, 6)));
    Ok(())
}

/// Two slots, the later one listed first: they are told in the order of their starts.
#[test]
fn slots_are_listed_backwards(rt: HostRuntime) -> Result<(), Fail> {
    let alloc = rt.alloc();
    let config = at_30_khz(Delays::usual()).expect(&rt, "30 kHz");
    let lines = two(alloc, two_symbols(1, 0, 2, 7), two_symbols(0, 0, 3, 5))?;
    let mut unit = made(alloc, &config, &lines)?;
    let mut air = MemoryAir::new(alloc, List::new(alloc));
    assert!(rt; unit.due() == Some(Ticks(15_776_256_000)));
    assert_eq!(rt; close(&mut unit, Ticks(15_831_856_000), &mut air), Ok(()));
    assert!(rt; unit.due() == Some(Ticks(16_544_256_000)));
    assert_eq!(rt; close(&mut unit, Ticks(17_000_000_000), &mut air), Ok(()));
    assert_eq!(rt; air.heard().len(), 4);
    assert_eq!(rt; told(&air, 0), Some((15_360_000_000, 0, 0, 3, 5)));
    assert_eq!(rt; told(&air, 1), Some((15_415_600_000, 0, 1, 3, 5)));
    assert_eq!(rt; told(&air, 2), Some((16_128_000_000, 1, 0, 2, 7)));
    assert_eq!(rt; told(&air, 3), Some((16_183_600_000, 1, 1, 2, 7)));
    Ok(())
}
