// Messages in two fragments: which are whole, and which are on time. All is worked out by hand.
ghost use Rattle.window_config.specs.Limits.{IsTime, IsWithinLimits};

use crate::sample_plans::{line, one};
use crate::samples::{DATA, Data, FIRST, LAST, READ, at_30_khz, block, cell, has_counted, heard};
use crate::steps::{close, made, step};
use air_source::MemoryAir;
use fault_counters::Counter;
use fh_base::{List, Ticks};
use std::test::Fail;
use window_config::{Delays, PlanLine, Range};

/// 100 us, 150 us and 271,001 ns after the start of symbol 0.
const AT_100_US: Ticks = Ticks(15_513_600_000);

const AT_150_US: Ticks = Ticks(15_590_400_000);

const LATE: Ticks = Ticks(15_776_257_536);

/// The usual times, but for Ta4: from 60 to 200 us.
fn narrow() -> Delays
    ensures { IsWithinLimits result }
{
    let mut delays = Delays::usual();
    delays.ta4 = Range {
        min: 60_000,
        max: 200_000,
    };
    delays
}

/// A message is early by its first piece, even where its last one is on time: 50 and 150 us after the start, where Ta4 begins at 60 us.
/// 100 us lie between the pieces, and the message is complete, since the distributed unit holds them for 221 us.
#[test]
fn a_message_is_early_by_its_first_piece(rt: HostRuntime) -> Result<(), Fail> {
    let alloc = rt.alloc();
    let config = at_30_khz(narrow()).expect(&rt, "30 kHz");
    let mut unit = made(alloc, &config, &one(alloc, line())?)?;
    let mut air = MemoryAir::new(alloc, List::new(alloc));
    assert_eq!(rt; step(&mut unit, FIRST, &DATA.first_piece()), READ);
    assert_eq!(rt; step(&mut unit, AT_150_US, &DATA.last_piece()), READ);
    assert_eq!(rt; close(&mut unit, Ticks(15_667_200_000), &mut air), Ok(()));
    assert_eq!(rt; air.heard().len(), 1);
    assert_eq!(rt; heard(&air, 0), Some(cell(0, 0xfff, None)));
    let wanted = [
        (Counter::Frames, 2),
        (Counter::Messages, 2),
        (Counter::FStored, 1),
        (Counter::FWhole, 1),
        (Counter::UEarly, 1),
        (Counter::Missing, 1),
    ];
    assert!(rt; has_counted(unit.counters(), &wanted));
    Ok(())
}

/// A message is late by its last piece, even where its first one is on time. The first message becomes whole at Ta4's maximum and is
/// shown; the second one a nanosecond later, when the cells were reported.
#[test]
fn a_message_is_late_by_its_last_piece(rt: HostRuntime) -> Result<(), Fail> {
    let alloc = rt.alloc();
    let config = at_30_khz(Delays::usual()).expect(&rt, "30 kHz");
    let two_prbs = PlanLine {
        num_prb: 2,
        ..line()
    };
    let mut unit = made(alloc, &config, &one(alloc, two_prbs)?)?;
    let mut air = MemoryAir::new(alloc, List::new(alloc));
    let first = Data { value: 7, ..DATA };
    let second = Data {
        sequence: 1,
        prb: 1,
        ..DATA
    };
    assert_eq!(rt; step(&mut unit, AT_100_US, &first.first_piece()), READ);
    assert_eq!(rt; step(&mut unit, AT_100_US, &second.first_piece()), READ);
    assert_eq!(rt; step(&mut unit, LAST, &first.last_piece()), READ);
    assert_eq!(rt; close(&mut unit, LAST, &mut air), Ok(()));
    assert_eq!(rt; step(&mut unit, LATE, &second.last_piece()), READ);
    assert_eq!(rt; air.heard().len(), 2);
    assert_eq!(rt; heard(&air, 0), Some(cell(0, 0xfff, block(7))));
    assert_eq!(rt; heard(&air, 1), Some(cell(1, 0xfff, None)));
    let wanted = [
        (Counter::Frames, 4),
        (Counter::Messages, 4),
        (Counter::FStored, 2),
        (Counter::FWhole, 2),
        (Counter::UTaken, 1),
        (Counter::ULate, 1),
        (Counter::Cells, 1),
        (Counter::Missing, 1),
    ];
    assert!(rt; has_counted(unit.counters(), &wanted));
    Ok(())
}

/// The usual times, but for how long the radio unit and the distributed unit hold fragments.
fn holding(down: i64, up: i64) -> Delays
    requires down { IsTime down }
    requires up { IsTime up }
    ensures { IsWithinLimits result }
{
    let mut delays = Delays::usual();
    delays.hold_dl = down;
    delays.hold_ul = up;
    delays
}

/// The distributed unit holds a message for as long as the uplink's hold says: two pieces that are received 100 us apart are complete.
#[test]
fn pieces_are_held_for_the_uplink(rt: HostRuntime) -> Result<(), Fail> {
    let alloc = rt.alloc();
    let config = at_30_khz(holding(0, 221_000)).expect(&rt, "30 kHz");
    let mut unit = made(alloc, &config, &one(alloc, line())?)?;
    let mut air = MemoryAir::new(alloc, List::new(alloc));
    let data = Data { value: 7, ..DATA };
    assert_eq!(rt; step(&mut unit, FIRST, &data.first_piece()), READ);
    assert_eq!(rt; step(&mut unit, AT_150_US, &data.last_piece()), READ);
    assert_eq!(rt; close(&mut unit, LAST, &mut air), Ok(()));
    assert_eq!(rt; air.heard().len(), 1);
    assert_eq!(rt; heard(&air, 0), Some(cell(0, 0xfff, block(7))));
    let wanted = [
        (Counter::Frames, 2),
        (Counter::Messages, 2),
        (Counter::FStored, 1),
        (Counter::FWhole, 1),
        (Counter::UTaken, 1),
        (Counter::Cells, 1),
    ];
    assert!(rt; has_counted(unit.counters(), &wanted));
    Ok(())
}

/// The downlink's hold says nothing here: where the uplink's is 0, the second piece begins another message.
#[test]
fn pieces_are_not_held_for_the_downlink(rt: HostRuntime) -> Result<(), Fail> {
    let alloc = rt.alloc();
    let config = at_30_khz(holding(221_000, 0)).expect(&rt, "30 kHz");
    let mut unit = made(alloc, &config, &one(alloc, line())?)?;
    let mut air = MemoryAir::new(alloc, List::new(alloc));
    assert_eq!(rt; step(&mut unit, FIRST, &DATA.first_piece()), READ);
    assert_eq!(rt; step(&mut unit, AT_150_US, &DATA.last_piece()), READ);
    assert_eq!(rt; close(&mut unit, LAST, &mut air), Ok(()));
    let wanted = [
        (Counter::Frames, 2),
        (Counter::Messages, 2),
        (Counter::FStored, 2),
        (Counter::Missing, 1),
    ];
    assert!(rt; has_counted(unit.counters(), &wanted));
    Ok(())
}
