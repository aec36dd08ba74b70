// Which data are taken: before frame 0, and by their direction. All is worked out by hand.
use crate::sample_plans::{line, one};
use crate::samples::{COMMAND, DATA, Data, FIRST, READ, at_30_khz, has_counted};
use crate::steps::{made, step};
use fault_counters::Counter;
use fh_base::Ticks;
use std::test::Fail;
use window_config::Delays;

/// Data of symbol 13 of slot 1 of subframe 9 of frame 255, with this sequence id.
fn last_symbol(sequence: u8) -> [u8; 64] {
    let mut frame = Data { sequence, ..DATA }.frame();
    frame[9] = 0xff;
    frame[10] = 0x90;
    frame[11] = 0x4d;
    frame
}

/// Data of symbol 13 of the last slot before frame 0, which starts 70144 Tc or 35,677 ns and a twelfth before time 0 and whose cells are
/// not planned: at 14,322 ns (early), 14,323 ns (taken), 235,322 ns (a repeat) and 235,323 ns (late).
#[test]
fn the_last_symbol_before_frame_0(rt: HostRuntime) -> Result<(), Fail> {
    let alloc = rt.alloc();
    let config = at_30_khz(Delays::usual()).expect(&rt, "30 kHz");
    let mut unit = made(alloc, &config, &one(alloc, line())?)?;
    assert_eq!(rt; step(&mut unit, Ticks(21_998_592), &last_symbol(0)), READ);
    assert_eq!(rt; step(&mut unit, Ticks(22_000_128), &last_symbol(1)), READ);
    assert_eq!(rt; step(&mut unit, Ticks(361_454_592), &last_symbol(2)), READ);
    assert_eq!(rt; step(&mut unit, Ticks(361_456_128), &last_symbol(3)), READ);
    let wanted = [
        (Counter::Frames, 4),
        (Counter::Messages, 4),
        (Counter::FWhole, 4),
        (Counter::UEarly, 1),
        (Counter::UTaken, 1),
        (Counter::URepeat, 1),
        (Counter::ULate, 1),
    ];
    assert!(rt; has_counted(unit.counters(), &wanted));
    Ok(())
}

/// What is not for this unit: downlink data are wrong_way, or refused where they are too short for their PRBs; a command is wrong_way, or
/// short where it has no transport header.
#[test]
fn the_wrong_way(rt: HostRuntime) -> Result<(), Fail> {
    let alloc = rt.alloc();
    let config = at_30_khz(Delays::usual()).expect(&rt, "30 kHz");
    let mut unit = made(alloc, &config, &one(alloc, line())?)?;
    let mut down = DATA.frame();
    down[8] = 0x90;
    assert_eq!(rt; step(&mut unit, FIRST, &down), READ);
    down[6] = 1;
    down[15] = 2;
    assert_eq!(rt; step(&mut unit, FIRST, &down), READ);
    assert_eq!(rt; step(&mut unit, FIRST, &COMMAND), READ);
    assert_eq!(rt;
        step(&mut unit, FIRST, &[0x10, 0x02, 0x00, 0x02, 0x00, 0x00]),
        READ
    );
    let wanted = [
        (Counter::Frames, 4),
        (Counter::Messages, 4),
        (Counter::FWhole, 2),
        (Counter::WrongWay, 2),
        (Counter::URefused, 1),
        (Counter::Short, 1),
    ];
    assert!(rt; has_counted(unit.counters(), &wanted));
    Ok(())
}
