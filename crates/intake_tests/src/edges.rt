// The edges of Ta4, at 30 kHz.
ghost use Rattle.window_config.specs.Limits.{IsWithinLimits};

use crate::sample_plans::{line, one};
use crate::samples::{
    COMMAND, DATA, Data, EARLY, FIRST, LAST, READ, at_30_khz, block, cell, has_counted, heard,
};
use crate::steps::{close, made, step};
use air_source::MemoryAir;
use fault_counters::Counter;
use fh_base::{List, Ticks};
use std::test::Fail;
use window_config::{Delays, Range};

/// A tick after the moment of symbol 0.
const LATE: Ticks = Ticks(15_776_256_001);

/// Each call once: data a nanosecond too early, on both edges of Ta4, and in the very moment of its cell; then a command.
#[test]
fn both_edges_are_on_time(rt: HostRuntime) -> Result<(), Fail> {
    let alloc = rt.alloc();
    let config = at_30_khz(Delays::usual()).expect(&rt, "30 kHz");
    let mut unit = made(alloc, &config, &one(alloc, line())?)?;
    assert!(rt; unit.clock() == Ticks(-15_360_000_000));
    assert!(rt; unit.due() == Some(LAST));
    assert_eq!(rt; step(&mut unit, EARLY, &DATA.frame()), READ);
    let second = Data {
        sequence: 1,
        ..DATA
    };
    assert_eq!(rt; step(&mut unit, FIRST, &second.frame()), READ);
    let third = Data {
        sequence: 2,
        ..DATA
    };
    assert_eq!(rt; step(&mut unit, LAST, &third.frame()), READ);
    assert_eq!(rt; step(&mut unit, LAST, &COMMAND), READ);
    assert_eq!(rt; step(&mut unit, LATE, &COMMAND), None);
    assert!(rt; unit.clock() == LAST);
    let wanted = [
        (Counter::Frames, 4),
        (Counter::Messages, 4),
        (Counter::WrongWay, 1),
        (Counter::FWhole, 3),
        (Counter::UEarly, 1),
        (Counter::UTaken, 1),
        (Counter::URepeat, 1),
    ];
    assert!(rt; has_counted(unit.counters(), &wanted));
    Ok(())
}

/// The usual times, but for Ta4: from 50 to 100 us.
fn until_100_us() -> Delays
    ensures { IsWithinLimits result }
{
    let mut delays = Delays::usual();
    delays.ta4 = Range {
        min: 50_000,
        max: 100_000,
    };
    delays
}

/// Data that leave 50 us after the start and take 50 us are received at Ta4's maximum: they are taken, and shown in the very moment.
#[test]
fn taken_and_shown_in_the_very_moment(rt: HostRuntime) -> Result<(), Fail> {
    let alloc = rt.alloc();
    let config = at_30_khz(until_100_us()).expect(&rt, "30 kHz");
    let mut unit = made(alloc, &config, &one(alloc, line())?)?;
    let mut air = MemoryAir::new(alloc, List::new(alloc));
    let moment = Ticks(15_513_600_000);
    let data = Data { value: 9, ..DATA };
    assert!(rt; unit.due() == Some(moment));
    assert_eq!(rt; step(&mut unit, moment, &data.frame()), READ);
    assert_eq!(rt; close(&mut unit, moment, &mut air), Ok(()));
    assert_eq!(rt; air.heard().len(), 1);
    assert_eq!(rt; heard(&air, 0), Some(cell(0, 0xfff, block(9))));
    let wanted = [
        (Counter::Frames, 1),
        (Counter::Messages, 1),
        (Counter::FWhole, 1),
        (Counter::UTaken, 1),
        (Counter::Cells, 1),
    ];
    assert!(rt; has_counted(unit.counters(), &wanted));
    Ok(())
}
