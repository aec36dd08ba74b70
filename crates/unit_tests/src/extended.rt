// One endpoint of 106 PRBs at 60 kHz with the extended cyclic prefix. A subframe has 4 slots of 12 symbols, and its symbol i starts
// 640 i Ts after it (3GPP TS 38.211, 4.3.2 and 5.3.1), of 50,000 ticks each. Frame 1 begins at tick 15360000000. Symbol 11 of its
// slot 1 is symbol 23 of subframe 0, and starts 736000000 ticks after it. A downlink command is on time from 470 to 259 us before its
// symbol, and data from 345 to 134 us; a nanosecond has 1536 ticks. The bytes, the moments and the counters are worked out by hand.
use crate::samples::{cell, config, endpoint, samples};
use crate::steps::{READ, cell_heard, hand, has_counted, made, step};
use air_source::{AirCell, MemoryAir};
use eaxc_map::Widths;
use fault_counters::Counter;
use fh_base::{List, Numerology, Slot, Ticks};
use std::test::Fail;
use window_config::Delays;

/// A downlink command of section type 1: frame 1, subframe 0, slot 1, symbol 11, section 1, all elements of PRB 0.
const COMMAND: [u8; 24] = [
    0x10, 0x02, 0x00, 0x14, 0x00, 0x00, 0x00, 0x80, 0x90, 0x01, 0x00, 0x4b, 0x01, 0x01, 0x00, 0x00,
    0x00, 0x10, 0x00, 0x01, 0xff, 0xf1, 0x00, 0x00,
];

/// The same cell by section type 3, with time offset, cyclic prefix and frequency offset 0.
const OFFSET_COMMAND: [u8; 32] = [
    0x10, 0x02, 0x00, 0x1c, 0x00, 0x00, 0x00, 0x80, 0x90, 0x01, 0x00, 0x4b, 0x01, 0x03, 0x00, 0x00,
    0x02, 0x00, 0x00, 0x00, 0x00, 0x10, 0x00, 0x01, 0xff, 0xf1, 0x00, 0x00, 0x00, 0x00, 0x00, 0x00,
];

/// The command's data: the samples (0, 0), (1, -1) and so on.
const DATA: [u8; 64] = [
    0x10, 0x00, 0x00, 0x3c, 0x00, 0x00, 0x00, 0x80, 0x90, 0x01, 0x00, 0x4b, 0x00, 0x10, 0x00, 0x01,
    0x00, 0x00, 0x00, 0x00, 0x00, 0x01, 0xff, 0xff, 0x00, 0x02, 0xff, 0xfe, 0x00, 0x03, 0xff, 0xfd,
    0x00, 0x04, 0xff, 0xfc, 0x00, 0x05, 0xff, 0xfb, 0x00, 0x06, 0xff, 0xfa, 0x00, 0x07, 0xff, 0xf9,
    0x00, 0x08, 0xff, 0xf8, 0x00, 0x09, 0xff, 0xf7, 0x00, 0x0a, 0xff, 0xf6, 0x00, 0x0b, 0xff, 0xf5,
];

/// The symbol's start.
const START: Ticks = Ticks(16_096_000_000);

/// 470 us before it, 259 us before it, and 200 us before it.
const EARLIEST: Ticks = Ticks(15_374_080_000);

const LATEST: Ticks = Ticks(15_698_176_000);

const DATA_AT: Ticks = Ticks(15_788_800_000);

const NANOSECOND: i64 = 1_536;

const SLOT: Slot = Slot {
    frame: 1,
    subframe: 0,
    slot: 1,
};

/// The command for another PRB.
fn command_of(prb: u8) -> [u8; 24] {
    let mut frame = COMMAND;
    frame[18] = prb;
    frame
}

/// A PRB of the symbol for which nothing was received.
fn missing(prb: u16) -> AirCell {
    AirCell {
        prb,
        ..cell(START, SLOT, 11, None)
    }
}

#[test]
fn the_last_symbol_of_a_slot_radiates(rt: HostRuntime) -> Result<(), Fail> {
    let alloc = rt.alloc();
    let e = endpoint(0, Numerology::extended(), 106);
    let config = config(e, Widths::new(4, 4, 4, 4)?, Delays::usual());
    let mut unit = made(alloc, &config)?;
    let mut air = MemoryAir::new(alloc, List::new(alloc));
    assert_eq!(rt; step(&mut unit, EARLIEST, &mut air), Ok(()));
    assert_eq!(rt; hand(&mut unit, &COMMAND), READ);
    assert_eq!(rt; unit.due(), Some(START));
    assert_eq!(rt; step(&mut unit, DATA_AT, &mut air), Ok(()));
    assert_eq!(rt; hand(&mut unit, &DATA), READ);
    assert_eq!(rt; step(&mut unit, START, &mut air), Ok(()));
    assert_eq!(rt; air.heard().len(), 1);
    assert_eq!(rt;
        cell_heard(&air, 0),
        Some(cell(START, SLOT, 11, Some(samples())))
    );
    let wanted = [
        (Counter::Frames, 2),
        (Counter::Messages, 2),
        (Counter::CAccepted, 1),
        (Counter::FWhole, 1),
        (Counter::UTaken, 1),
        (Counter::Cells, 1),
    ];
    assert!(rt; has_counted(unit.counters(), &wanted));
    Ok(())
}

/// Symbol 12 and slot 4 in the headers of commands and of data, and a command for the symbols 11 and 12.
#[test]
fn no_slot_has_a_thirteenth_symbol(rt: HostRuntime) -> Result<(), Fail> {
    let alloc = rt.alloc();
    let e = endpoint(0, Numerology::extended(), 106);
    let config = config(e, Widths::new(4, 4, 4, 4)?, Delays::usual());
    let mut unit = made(alloc, &config)?;
    let mut air = MemoryAir::new(alloc, List::new(alloc));
    let mut symbol_12 = COMMAND;
    symbol_12[11] = 0x4c;
    let mut slot_4 = COMMAND;
    slot_4[10] = 0x01;
    slot_4[11] = 0x0b;
    let mut two_symbols = COMMAND;
    two_symbols[21] = 0xf2;
    let mut data_12 = DATA;
    data_12[11] = 0x4c;
    let mut data_4 = DATA;
    data_4[6] = 0x01;
    data_4[10] = 0x01;
    data_4[11] = 0x0b;
    assert_eq!(rt; step(&mut unit, EARLIEST, &mut air), Ok(()));
    assert_eq!(rt; hand(&mut unit, &symbol_12), READ);
    assert_eq!(rt; hand(&mut unit, &slot_4), READ);
    assert_eq!(rt; hand(&mut unit, &two_symbols), READ);
    assert_eq!(rt; step(&mut unit, DATA_AT, &mut air), Ok(()));
    assert_eq!(rt; hand(&mut unit, &data_12), READ);
    assert_eq!(rt; hand(&mut unit, &data_4), READ);
    assert_eq!(rt; unit.due(), None);
    let wanted = [
        (Counter::Frames, 5),
        (Counter::Messages, 5),
        (Counter::CRefused, 3),
        (Counter::FWhole, 2),
        (Counter::URefused, 2),
    ];
    assert!(rt; has_counted(unit.counters(), &wanted));
    Ok(())
}

#[test]
fn section_type_3_is_a_mismatch(rt: HostRuntime) -> Result<(), Fail> {
    let alloc = rt.alloc();
    let e = endpoint(0, Numerology::extended(), 106);
    let config = config(e, Widths::new(4, 4, 4, 4)?, Delays::usual());
    let mut unit = made(alloc, &config)?;
    let mut air = MemoryAir::new(alloc, List::new(alloc));
    assert_eq!(rt; step(&mut unit, EARLIEST, &mut air), Ok(()));
    assert_eq!(rt; hand(&mut unit, &OFFSET_COMMAND), READ);
    assert_eq!(rt; unit.due(), None);
    let wanted = [
        (Counter::Frames, 1),
        (Counter::Messages, 1),
        (Counter::CMismatch, 1),
    ];
    assert!(rt; has_counted(unit.counters(), &wanted));
    Ok(())
}

/// Commands for the PRBs 0 to 3, one on each edge of the window and one a nanosecond outside of each.
#[test]
fn a_nanosecond_outside_of_its_window(rt: HostRuntime) -> Result<(), Fail> {
    let alloc = rt.alloc();
    let e = endpoint(0, Numerology::extended(), 106);
    let config = config(e, Widths::new(4, 4, 4, 4)?, Delays::usual());
    let mut unit = made(alloc, &config)?;
    let mut air = MemoryAir::new(alloc, List::new(alloc));
    assert_eq!(rt;
        step(&mut unit, Ticks(EARLIEST.0 - NANOSECOND), &mut air),
        Ok(())
    );
    assert_eq!(rt; hand(&mut unit, &command_of(0)), READ);
    assert_eq!(rt; step(&mut unit, EARLIEST, &mut air), Ok(()));
    assert_eq!(rt; hand(&mut unit, &command_of(1)), READ);
    assert_eq!(rt; step(&mut unit, LATEST, &mut air), Ok(()));
    assert_eq!(rt; hand(&mut unit, &command_of(2)), READ);
    assert_eq!(rt;
        step(&mut unit, Ticks(LATEST.0 + NANOSECOND), &mut air),
        Ok(())
    );
    assert_eq!(rt; hand(&mut unit, &command_of(3)), READ);
    assert_eq!(rt; step(&mut unit, START, &mut air), Ok(()));
    assert_eq!(rt; air.heard().len(), 2);
    assert_eq!(rt; cell_heard(&air, 0), Some(missing(1)));
    assert_eq!(rt; cell_heard(&air, 1), Some(missing(2)));
    let wanted = [
        (Counter::Frames, 4),
        (Counter::Messages, 4),
        (Counter::CEarly, 1),
        (Counter::CLate, 1),
        (Counter::CAccepted, 2),
        (Counter::Missing, 2),
    ];
    assert!(rt; has_counted(unit.counters(), &wanted));
    Ok(())
}
